//! Laws on what residuals make and change: calls of built-ins, literals, lengths of arrays, operators.
#![tactic(auto)]

ghost use Rattle.residual_builtins.specs.Calls.{CallsRun};
ghost use Rattle.residual_builtins.specs.Examples.{Examples};
ghost use Rattle.residual_builtins.specs.Heaps.{PutsRight};
ghost use Rattle.residual_builtins.specs.Values.{ValuesRun};

/// Calls of the built-ins that a residual calls, through a temporary that holds them (15.2.3.5, 15.2.3.6, 15.2.3.10): `Object.create`
/// makes an object with this prototype or none, `Object.defineProperty` does what [[DefineOwnProperty]] does with the descriptor that
/// the fields of its last argument spell, and `Object.preventExtensions` fixes its object; nothing else changes. With their steps.
#[tactic(auto, using(crate::proofs::Calls::calls_run))]
pub fn call_law()
    ensures { CallsRun }
{}

/// Literals with fields and elements make an object and fill it (11.1.4, 11.1.5), whatever their values are; operators give what the
/// table gives of their operands (11.4 to 11.10); a name that no environment binds has its value on the global object, among them
/// `undefined` (10.2.2.1); `delete E["k"]` deletes (11.4.1). With their steps.
#[tactic(auto, using(crate::proofs::Values::values_run))]
pub fn value_law()
    ensures { ValuesRun }
{}

/// What [[Put]] makes of the objects to which a residual assigns (8.12.5, 15.4.5.1): a new property, another value of one that can be
/// written, a greater length of an array. The prototypes of `{}` and `[]` as they are at the start have nothing that an assignment
/// could meet.
#[tactic(auto, using(crate::proofs::Heaps::puts_right))]
pub fn put_law()
    ensures { PutsRight }
{}

/// A heap and trees that meet what the laws above ask.
#[tactic(auto, using(crate::proofs::Examples::examples))]
pub fn example_law()
    ensures { Examples }
{}
