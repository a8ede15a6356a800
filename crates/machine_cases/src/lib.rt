//! Cases of the definitions of `plain_heap` and `js_machine`, worked out by hand.
#![tactic(auto)]

ghost use Rattle.machine_cases.specs.MethodCases.{MethodCases};
ghost use Rattle.machine_cases.specs.ExpressionRuns.{ExpressionRuns};
ghost use Rattle.machine_cases.specs.WorldRuns.{WorldRuns};
ghost use Rattle.machine_cases.specs.StrictRuns.{StrictRuns};
ghost use Rattle.machine_cases.specs.ThrownRuns.{ThrownRuns};
ghost use Rattle.machine_cases.specs.StatementRuns.{StatementRuns};
ghost use Rattle.machine_cases.specs.FunctionRuns.{FunctionRuns};
ghost use Rattle.machine_cases.specs.ObjectRuns.{ObjectRuns};
ghost use Rattle.machine_cases.specs.ArrayRuns.{ArrayRuns};
ghost use Rattle.machine_cases.specs.ChoiceRuns.{ChoiceRuns};
ghost use Rattle.machine_cases.specs.ListingCases.{ListingCases};
ghost use Rattle.machine_cases.specs.RealmCases.{RealmCases};
ghost use Rattle.machine_cases.specs.TextCases.{TextCases};
ghost use Rattle.machine_cases.specs.AgreementCases.{AgreementCases};
ghost use Rattle.machine_cases.specs.ArrayTurns.{ArrayTurns};
ghost use Rattle.machine_cases.specs.CellCases.{CellCases};
ghost use Rattle.machine_cases.specs.CodeCases.{CodeCases};
ghost use Rattle.machine_cases.specs.LeftRuns.{LeftRuns};
ghost use Rattle.machine_cases.specs.NeedRuns.{NeedRuns};
ghost use Rattle.machine_cases.specs.ObjectTurns.{ObjectTurns};
ghost use Rattle.machine_cases.specs.RealmOrder.{RealmOrder};

/// Cases of the internal methods of objects, of valid heaps and of names in environments, worked out by hand.
#[tactic(auto, using(crate::proofs::MethodCases::method_cases))]
pub fn method_cases()
    ensures { MethodCases }
{}

/// Runs of scripts of the whole language, worked out by hand: what they leave in global variables, what they throw, where and
/// why they leave the profile, and how many steps they take. Each holds wherever enough nodes may be active at once.
#[tactic(auto, using(crate::proofs::ExpressionRuns::expression_runs, crate::proofs::StatementRuns::statement_runs, crate::proofs::FunctionRuns::function_runs, crate::proofs::ObjectRuns::object_runs, crate::proofs::ArrayRuns::array_runs, crate::proofs::WorldRuns::world_runs))]
pub fn run_cases()
    ensures expressions { ExpressionRuns }
    ensures statements { StatementRuns }
    ensures functions { FunctionRuns }
    ensures objects { ObjectRuns }
    ensures arrays { ArrayRuns }
    ensures worlds { WorldRuns }
{}

/// Runs of strict code, and of code beside it that isn't, worked out by hand: its `this`, changes that are refused, names that
/// nothing declares, and functions in strict functions (8.7.2, 10.1.1, 10.4.3, 11.4.1).
#[tactic(auto, using(crate::proofs::StrictRuns::strict_runs))]
pub fn strict_cases()
    ensures { StrictRuns }
{}

/// Runs in worlds whose answers to host calls are thrown, worked out by hand.
#[tactic(auto, using(crate::proofs::ThrownRuns::thrown_runs))]
pub fn thrown_cases()
    ensures { ThrownRuns }
{}

/// Runs along choices of the tests of inputs and answers, and what a world is to give, worked out by hand.
#[tactic(auto, using(crate::proofs::ChoiceRuns::choice_runs))]
pub fn choice_cases()
    ensures { ChoiceRuns }
{}

/// Listings of heaps and their texts, worked out by hand: new objects, functions and cells, and what differs of the objects that
/// are there from the start.
#[tactic(auto, using(crate::proofs::ListingCases::listing_cases, crate::proofs::TextCases::text_cases))]
pub fn listing_cases()
    ensures rows { ListingCases }
    ensures texts { TextCases }
{}

/// Cases of the objects that are there from the start, which are a valid heap, and of runs that end since too many nodes or calls
/// of built-ins are active at once.
#[tactic(auto, using(crate::proofs::RealmCases::realm_cases))]
pub fn realm_cases()
    ensures { RealmCases }
{}

/// The objects that are there from the start, one after another: the class and the prototype of each, its own properties in order
/// with their values and attributes, those that are left out among them, and the `length` of each function.
#[tactic(auto, using(crate::proofs::RealmOrder::realm_order))]
pub fn realm_order_cases()
    ensures { RealmOrder }
{}

/// How many steps runs of the built-ins take: with so many a script ends, and with one less its steps are spent. The turns of a
/// built-in that count are those over own properties, items, arguments and elements, holes among them.
#[tactic(auto, using(crate::proofs::ObjectTurns::object_turns, crate::proofs::ArrayTurns::array_turns))]
pub fn turn_cases()
    ensures objects { ObjectTurns }
    ensures arrays { ArrayTurns }
{}

/// Where and why runs leave the profile, and where and why runs along choices stop: at a symbol as a key, as a base, as a length or as
/// a number that a built-in takes. And the attributes of an error's message.
#[tactic(auto, using(crate::proofs::LeftRuns::left_runs, crate::proofs::NeedRuns::need_runs))]
pub fn left_cases()
    ensures causes { LeftRuns }
    ensures needs { NeedRuns }
{}

/// Which runs that ended agree: they made the same host calls, both ended normally or threw what is the same in the numbering of their
/// listings, and these listings are equal, with the cells that functions share. Runs that differ in one of these don't agree, and
/// runs that didn't end never do. And which scripts are closed: those without inputs and host calls, in their functions too.
#[tactic(auto, using(crate::proofs::AgreementCases::agreement_cases, crate::proofs::CellCases::cell_cases))]
pub fn agreement_cases()
    ensures runs { AgreementCases }
    ensures cells { CellCases }
{}

/// The code of a function in a listing, where a scope binds some of its free names: each of them is written as its position among
/// them, in the order in which they come first.
#[tactic(auto, using(crate::proofs::CodeCases::code_cases))]
pub fn code_cases()
    ensures { CodeCases }
{}
