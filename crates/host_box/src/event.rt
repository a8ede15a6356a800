ghost use Rattle.std.specs.Prelude.{◌≡◌, IfOk};
ghost use Rattle.host_box.specs.Recorders.{event};

use js_value::{Kind, NoMemory, Primitive, Prims, Seq, Text};
use std::alloc::Global;

/// A call that was answered: its name, its arguments, and the answer with its kind and its mark.
#[derive(Debug, Drop)]
pub struct HostEvent {
    pub name: Text,
    pub args: Prims,
    pub kind: Kind,
    pub answer: Primitive,
    /// Whether the answer was thrown.
    pub threw: bool,
}

/// The calls that were answered, in order.
pub type Calls = Seq<HostEvent>;

fn copied(alloc: Global, value: &Primitive) -> Result<Primitive, NoMemory>
    ensures { IfOk result (λ v. v ≡ value.now) }
{
    Ok(match value {
        Primitive::Undefined => Primitive::Undefined,
        Primitive::Null => Primitive::Null,
        Primitive::Boolean(b) => Primitive::Boolean(*b),
        Primitive::Number(n) => Primitive::Number(*n),
        Primitive::Text(text) => Primitive::Text(text.copy(alloc)?),
    })
}

fn all_copied(alloc: Global, values: &[Primitive]) -> Result<Prims, NoMemory>
    ensures { IfOk result (λ all. all ≡ values.now) }
{
    let mut all = Prims::new(alloc);
    for value in values {
        all.push(copied(alloc, value)?)?;
    }
    Ok(all)
}

impl HostEvent {
    /// A call with its answer, as copies.
    pub(crate) fn of_call(
        alloc: Global,
        name: &Text,
        args: &Prims,
        kind: Kind,
        answer: &Primitive,
        threw: bool,
    ) -> Result<HostEvent, NoMemory>
        ensures { IfOk result (λ e. e ≡ event name.now args.now kind answer.now threw) }
    {
        Ok(HostEvent {
            name: name.copy(alloc)?,
            args: all_copied(alloc, args.as_slice())?,
            kind,
            answer: copied(alloc, answer)?,
            threw,
        })
    }
}
