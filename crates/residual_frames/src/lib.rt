//! Laws on the frame of a residual: the wrapper's call, `var` statements, paths from `this`, and functions.
#![tactic(auto)]

ghost use Rattle.residual_frames.specs.Examples.{Examples};
ghost use Rattle.residual_frames.specs.Frames.{FramesRun};
ghost use Rattle.residual_frames.specs.Scripts.{ScriptsRun};

/// The frame of a residual, whatever the places of its nodes: `(function () { .. }).call(this);` makes the function and runs its body
/// with its variables and the global object as `this` (13.2.1, 15.3.4.4), and throws what the body throws; a `var` statement gives its
/// variables what their initialisers give (12.2); a path from `this` gives the object to which it leads; a function without a name is
/// made with the environment that it captures (13.2). With their steps.
#[tactic(auto, using(crate::proofs::Frames::frames_run))]
pub fn frame_law()
    ensures { FramesRun }
{}

/// A heap that meets what the law above asks.
#[tactic(auto, using(crate::proofs::Examples::examples))]
pub fn example_law()
    ensures { Examples }
{}

/// A script without function declarations binds its variables on the global object, each that it hasn't (10.5), and then ends, or
/// throws, as its statements do, with the host calls and the heap that they leave, wherever it has at least as many steps.
#[tactic(auto, using(crate::proofs::Scripts::scripts_run))]
pub fn script_law()
    ensures { ScriptsRun }
{}
