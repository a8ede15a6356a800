//! The values of the language as data: strings, whole numbers, primitives, and the lists and boxes that trees are made of.
#![tactic(auto)]

ghost use Rattle.js_value.specs.OperatorCases.{OperatorCases};

mod arithmetic;
mod boxed;
mod conversion;
mod memory;
mod number;
mod operation;
mod operator;
mod place;
mod primitive;
mod refused;
mod seq;
mod spelling;
mod text;
mod why;

pub use boxed::Box;
pub use conversion::{same_value, to_number, to_text, truth};
pub use memory::NoMemory;
pub use number::{GREATEST_NUMBER, add, negate, push_number, subtract};
pub use operation::{GREATEST_LENGTH, binary, strict_equal, unary};
pub use operator::{BinaryOp, UnaryOp};
pub use place::{FuncNo, Place};
pub use primitive::{Kind, Primitive};
pub use refused::Refused;
pub use seq::Seq;
pub use text::{Text, is_spelled};
pub use why::Why;

/// A list of bytes.
pub type Bytes = Seq<u8>;

/// A list of texts.
pub type Texts = Seq<Text>;

/// A list of primitives.
pub type Prims = Seq<Primitive>;

/// Cases of the conversions (9) and of the operators on values that are no objects (11), worked out by hand.
#[tactic(auto, using(crate::proofs::OperatorCases::operator_cases))]
pub fn operator_cases()
    ensures { OperatorCases }
{}
