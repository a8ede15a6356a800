//! What is computed of trees, as tests over texts that are read: counts, early checks, names, functions alone and residuals.
#![tactic(auto)]

#[cfg(test)]
mod alone;
#[cfg(test)]
mod counts;
#[cfg(test)]
mod early;
#[cfg(test)]
mod names;
#[cfg(test)]
mod readable;
#[cfg(test)]
mod residuals;
#[cfg(test)]
mod texts;
