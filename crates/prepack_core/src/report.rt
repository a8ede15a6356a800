ghost use Rattle.std.specs.Prelude.{◌≡◌, ◌++◌, decimal};
ghost use Rattle.std.specs.Bool.{OnTrue, OnFalse};
ghost use Rattle.pp_io.specs.Streams.{Rose, after_held};
ghost use Rattle.prepack_core.specs.Flow.{IsAppended};
ghost use Rattle.prepack_core.specs.Report as spec;

use crate::write_text;
use itoa::Buffer;
use js_tree::Feature;
use js_value::{Place, Why};
use pp_io::Sink;

/// How a run of the program ends.
#[derive(Clone, Copy, Debug, PartialEq, Eq)]
pub enum Status {
    Done,
    Differs,
    Usage,
    Syntax,
    Unsupported,
    Stuck,
    StepsSpent,
    TooLarge,
    ReadFault,
    WriteFault,
    HostFault,
    NoMemory,
    Nested,
}

impl Status {
    /// The number that the program ends with: the position above, from 0.
    pub fn number(&self) -> u8
        ensures { result ≡ spec.number_of self.now }
    {
        *self as u8
    }
}

/// Why a run of the program ends otherwise than well.
#[derive(Clone, Copy, Debug, PartialEq, Eq)]
pub enum Report {
    Usage,
    /// The text is no script of the language.
    Syntax(Place),
    Unsupported(Place, Feature),
    /// More parts are open than may be, or a tree is too high.
    Nested(Place),
    /// The script's run leaves the profile at a place, whatever is chosen.
    Stuck(Place, Why),
    TooLarge,
    ReadFault,
    WriteFault,
    NoMemory,
}

impl Report {
    /// The status that the report belongs to.
    pub fn status(&self) -> Status
        ensures { result ≡ spec.status_of self.now }
    {
        match self {
            Report::Usage => Status::Usage,
            Report::Syntax(_) => Status::Syntax,
            Report::Unsupported(_, _) => Status::Unsupported,
            Report::Nested(_) => Status::Nested,
            Report::Stuck(_, _) => Status::Stuck,
            Report::TooLarge => Status::TooLarge,
            Report::ReadFault => Status::ReadFault,
            Report::WriteFault => Status::WriteFault,
            Report::NoMemory => Status::NoMemory,
        }
    }
}

/// The name of a feature in a diagnostic line.
fn feature_name(feature: Feature) -> &'static [u8]
    ensures { result.now ≡ spec.feature_name feature }
{
    match feature {
        Feature::With => b"with",
        Feature::Debugger => b"debugger",
        Feature::Label => b"label",
        Feature::RegularExpression => b"regular expression",
        Feature::Eval => b"eval",
        Feature::Arguments => b"arguments",
        Feature::OctalLiteral => b"octal literal",
        Feature::OctalEscape => b"octal escape",
        Feature::NumberLiteral => b"number",
        Feature::IdentifierEscape => b"identifier escape",
        Feature::FunctionInBlock => b"function in block",
        Feature::ForInInitialiser => b"for-in initialiser",
        Feature::DeleteName => b"delete of a name",
        Feature::StrictCode => b"strict code",
        Feature::ProtoName => b"__proto__",
        Feature::AbstractForm => b"abstract form",
        Feature::ResidualForm => b"residual form",
        Feature::AbstractType => b"abstract type",
        Feature::OwnName => b"own name",
        Feature::NotBuilt => b"not built",
    }
}

/// The name of a cause for leaving the profile in a diagnostic line.
fn why_name(why: Why) -> &'static [u8]
    ensures { result.now ≡ spec.why_name why }
{
    match why {
        Why::Fraction => b"fraction",
        Why::Unsafe => b"unsafe",
        Why::NotANumber => b"not-a-number",
        Why::Infinite => b"infinite",
        Why::MinusZero => b"minus-zero",
        Why::NumberSpelling => b"number-spelling",
        Why::TextLength => b"text-length",
        Why::ObjectToPrimitive => b"object-to-primitive",
        Why::PrimitiveThis => b"primitive-this",
        Why::PrimitiveProperty => b"primitive-property",
        Why::ProtoKey => b"proto-key",
        Why::AbsentBuiltin => b"absent-builtin",
        Why::ClosedBuiltin => b"closed-builtin",
        Why::BuiltinArgument => b"builtin-argument",
        Why::HostArgument => b"host-argument",
        Why::NoAnswer => b"no-answer",
        Why::AnswerKind => b"answer-kind",
        Why::NoInput => b"no-input",
        Why::InputKind => b"input-kind",
        Why::Depth => b"depth",
    }
}

/// Writes two pieces, the second only where the first was taken, and says whether both were.
fn write_both<K: Sink>(sink: &mut K, first: &[u8], second: &[u8]) -> bool
    ensures appended { IsAppended (K.held sink.old) (K.held sink.new) (K.faults sink.old)
        (K.faults sink.new) (first.now ++ second.now) }
    ensures whole { OnTrue result (K.held sink.new ≡ after_held (K.held sink.old) (first.now ++ second.now)) }
    ensures cause { OnFalse result (Rose (K.faults sink.old) (K.faults sink.new)) }
{
    write_text(sink, first) && write_text(sink, second)
}

/// Writes a place behind `front`, and says whether both were taken.
fn write_place<K: Sink>(sink: &mut K, front: &[u8], at: Place) -> bool
    ensures appended { IsAppended (K.held sink.old) (K.held sink.new) (K.faults sink.old)
        (K.faults sink.new) (front.now ++ decimal at.0) }
    ensures whole { OnTrue result (K.held sink.new ≡ after_held (K.held sink.old) (front.now ++ decimal at.0)) }
    ensures cause { OnFalse result (Rose (K.faults sink.old) (K.faults sink.new)) }
{
    let mut buffer = Buffer::new();
    write_both(sink, front, buffer.format(at.0).as_bytes())
}

/// Writes `front`, a place, `middle`, a name and `end`, as far as the sink takes them.
fn tell_place<K: Sink>(
    sink: &mut K,
    front: &[u8],
    at: Place,
    middle: &[u8],
    name: &[u8],
    end: &[u8],
)
    ensures { IsAppended (K.held sink.old) (K.held sink.new) (K.faults sink.old) (K.faults sink.new)
        (spec.place_line front.now at middle.now name.now end.now) }
{
    if !write_place(sink, front, at) {
        return;
    }
    if !write_both(sink, middle, name) {
        return;
    }
    write_text(sink, end);
}

/// Writes `front`, a place and the end of the line, as far as the sink takes them.
fn tell_bare_place<K: Sink>(sink: &mut K, front: &[u8], at: Place)
    ensures { IsAppended (K.held sink.old) (K.held sink.new) (K.faults sink.old) (K.faults sink.new)
        (spec.bare_line front.now at) }
{
    tell_place(sink, front, at, b"", b"", b"\n");
}

/// Writes the line of a report, as far as the sink takes it. It takes no memory.
pub fn tell<K: Sink>(sink: &mut K, report: &Report)
    ensures { IsAppended (K.held sink.old) (K.held sink.new) (K.faults sink.old) (K.faults sink.new)
        (spec.line_of report.now) }
{
    match report {
        Report::Usage => {
            write_text(
                sink,
                b"usage: prepack [--steps N] eval | run ITEM.. | drill N\n",
            );
        }
        Report::Syntax(at) => tell_bare_place(sink, b"syntax at ", *at),
        Report::Nested(at) => tell_bare_place(sink, b"nested at ", *at),
        Report::Unsupported(at, feature) => {
            let name = feature_name(*feature);
            tell_place(sink, b"unsupported at ", *at, b": ", name, b"\n");
        }
        Report::Stuck(at, why) => {
            let name = why_name(*why);
            tell_place(sink, b"stuck at ", *at, b": leaves ", name, b" []\n");
        }
        Report::TooLarge => {
            write_text(sink, b"source over 1048576 bytes\n");
        }
        Report::ReadFault => {
            write_text(sink, b"read fault\n");
        }
        Report::WriteFault => {
            write_text(sink, b"write fault\n");
        }
        Report::NoMemory => {
            write_text(sink, b"out of memory\n");
        }
    }
}
