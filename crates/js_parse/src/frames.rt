//! What waits for an operand, as a stack: nothing is read by recursion that isn't counted as open.

ghost use Rattle.std.specs.Prelude.{◌≡◌, ◌∷◌, [], OnOk, MatchOption};
ghost use Rattle.js_parse.specs.Frames.{callee_of, level_of, of_first};

use js_tree::{Expr, Fields};
use js_value::{NoMemory, Place, Text};
use smallvec::SmallVec;
use std::alloc::Global;
use std::marker::Model;
use token_marks::{Level, Operator};

/// An operator with its left side, whose right side is being read.
#[derive(Debug, Drop)]
pub struct Open {
    pub left: Expr,
    pub op: Operator,
    pub level: Level,
    pub allows_in: bool,
}

/// An object literal with its properties so far, of which the value of the next one is being read.
#[derive(Debug, Drop)]
pub struct Literal {
    pub at: Place,
    pub so_far: Fields,
    pub key_at: Place,
    pub key: Text,
}

/// What waits for an operand.
#[derive(Debug, Default, Drop)]
pub enum Frame {
    /// A postfix expression (11.3).
    #[default]
    Postfix,
    /// A logical OR expression (11.11), with or without `in`.
    Operation(bool),
    /// `new` (11.2.2), for its callee.
    Callee(Place),
    /// An operator (11.5 to 11.11), for its right side.
    Right(Open),
    /// An object literal (11.1.5), for the value of a property.
    Value(Literal),
}

/// What waits, the innermost first.
#[derive(Drop)]
pub struct Frames {
    stack: SmallVec<Frame, 4>,
}

impl Model for Frames {
    ghost use Rattle.std.specs.Prelude.{List, reverse};
    ghost use Rattle.std.specs.Coded.{codes};
    ghost use Rattle.js_parse.specs.declared.frames.Frame.{Frame};
    ghost use Rattle.js_parse.specs.contracts.frames.Frame as frame;

    ghost Value = { List Frame };

    ghost coded = { Prim.hlevel (codes, frame.the_row.coded) };

    ghost view = { λ f. reverse f.stack.items };
}

impl Frames {
    pub fn new(alloc: Global) -> Frames
        ensures { result ≡ [] }
    {
        Frames {
            stack: SmallVec::new(alloc),
        }
    }

    pub fn push(&mut self, frame: Frame) -> Result<(), NoMemory>
        ensures ok { OnOk result (self.new ≡ frame ∷ self.old) }
    {
        match self.stack.push(frame) {
            Ok(()) => Ok(()),
            Err(_) => Err(NoMemory),
        }
    }

    pub fn pop(&mut self) -> Option<Frame>
        ensures { MatchOption result ((self.old ≡ []) × (self.new ≡ [])) (λ frame. self.old ≡ frame ∷ self.new) }
    {
        self.stack.pop()
    }

    /// Where the innermost is a `new`, its place.
    pub fn callee(&self) -> Option<Place>
        ensures { result ≡ of_first callee_of self.now }
    {
        match self.stack.as_slice().last() {
            Some(Frame::Callee(at)) => Some(*at),
            _ => None,
        }
    }

    /// Where the innermost waits for operators, the level that they have to pass, and whether `in` may be one.
    pub fn level(&self) -> Option<(Level, bool)>
        ensures { result ≡ of_first level_of self.now }
    {
        match self.stack.as_slice().last() {
            Some(Frame::Operation(allows_in)) => Some((Level::Any, *allows_in)),
            Some(Frame::Right(open)) => Some((open.level, open.allows_in)),
            Some(Frame::Value(_)) => Some((Level::Any, true)),
            _ => None,
        }
    }
}

/// Where reading an operand is.
#[derive(Debug, Drop)]
pub enum Stage {
    /// An operand comes next.
    Begin,
    /// The properties of an object literal come next, behind those so far.
    Fields(Place, Fields),
    /// This operand was read, without what stands behind it.
    Operand(Expr),
    /// This was read up to its postfix operator.
    Unary(Expr),
}

/// What a step comes to.
#[derive(Debug, Drop)]
pub enum Next {
    Stage(Stage),
    /// Nothing waits any more.
    Done(Expr),
}

/// The beginning of an operand.
#[derive(Debug, Drop)]
pub enum First {
    /// All of it.
    Whole(Expr),
    /// `new` at this place.
    New(Place),
    /// The brace of an object literal at this place.
    Object(Place),
}

/// An object literal as far as it was read.
#[derive(Debug, Drop)]
pub enum Reached {
    /// All of it.
    Whole(Expr),
    /// These properties, and more come next.
    Fields(Place, Fields),
}
