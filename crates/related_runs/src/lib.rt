//! Two runs whose heaps correspond: every rule of the language keeps them corresponding, event by event.
#![tactic(auto)]
