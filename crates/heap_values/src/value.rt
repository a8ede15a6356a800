//! Values of runs in which every value is known (8).

ghost use Rattle.std.specs.Prelude.{◌≡◌, IfOk};
ghost use Rattle.plain_heap.specs.Methods.{is_same_known};
ghost use Rattle.heap_values.specs.Meaning.{value_of};

use crate::ObjNo;
use js_value::{NoMemory, Primitive, same_value};
use std::alloc::Global;

/// A value.
#[derive(Debug, Drop)]
pub enum Value {
    Prim(Primitive),
    Object(ObjNo),
    /// The value of a built-in that this profile leaves out.
    Absent,
}

impl Value {
    /// A copy.
    pub fn copy(&self, alloc: Global) -> Result<Value, NoMemory>
        ensures { IfOk result (λ v. v ≡ self.now) }
    {
        match self {
            Value::Prim(p) => Ok(Value::Prim(copy_primitive(alloc, p)?)),
            Value::Object(o) => Ok(Value::Object(*o)),
            Value::Absent => Ok(Value::Absent),
        }
    }

    /// SameValue (9.12), where neither value is left out.
    pub fn is_same(&self, other: &Value) -> Option<bool>
        ensures { result ≡ is_same_known (value_of self.now) (value_of other.now) }
    {
        match (self, other) {
            (Value::Absent, _) | (_, Value::Absent) => None,
            (Value::Prim(p), Value::Prim(q)) => Some(same_value(p, q)),
            (Value::Object(m), Value::Object(n)) => Some(*m == *n),
            _ => Some(false),
        }
    }
}

/// A copy of a primitive.
fn copy_primitive(alloc: Global, p: &Primitive) -> Result<Primitive, NoMemory>
    ensures { IfOk result (λ q. q ≡ p.now) }
{
    match p {
        Primitive::Undefined => Ok(Primitive::Undefined),
        Primitive::Null => Ok(Primitive::Null),
        Primitive::Boolean(b) => Ok(Primitive::Boolean(*b)),
        Primitive::Number(n) => Ok(Primitive::Number(*n)),
        Primitive::Text(t) => Ok(Primitive::Text(t.copy(alloc)?)),
    }
}
