//! Laws on the runs of a residual's statements, by the rules of the whole language.
#![tactic(auto)]

ghost use Rattle.residual_runs.specs.Statements.{BodiesRun};

/// What statements of a residual's body do, for every continuation and wherever their nodes stand: operands, properties that are
/// read, conditional values, `{}` and functions without a name give their values (11.1, 11.2.1, 11.12, 13), inputs and host calls what
/// the world has; assignments to temporaries and to properties, and `delete`, change the cell or the object and nothing else (11.4.1,
/// 11.13.1); a call of a built-in does what its rule does (11.2.3); `throw` throws, conditions and blocks do what their parts do, and
/// statements come one after another (12.1, 12.5, 12.13). With the count of their steps, and the host calls made before and after.
#[tactic(auto, using(crate::proofs::Statements::bodies_run))]
pub fn body_law()
    ensures { BodiesRun }
{}
