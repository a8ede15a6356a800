use host_box::ListHost;
use pp_io::{MemorySink, MemorySource};
use prepack_core::{Status, prepack};
use std::alloc::Global;
use std::test::Fail;

/// What a run over memory gave: the status, and what the two sinks hold.
#[derive(Drop)]
pub struct Ran {
    pub status: Status,
    pub out: MemorySink,
    pub diag: MemorySink,
}

/// The call of each object that fails, counted from 1. 0 names none.
#[derive(Clone, Copy)]
pub struct Faults {
    read: u64,
    write: u64,
    tell: u64,
}

pub const NO_FAULTS: Faults = Faults {
    read: 0,
    write: 0,
    tell: 0,
};

/// Runs the program on a source and on sinks that move at most `step` bytes a call.
pub fn run(
    alloc: Global,
    words: Vec<String>,
    bytes: Vec<u8>,
    step: usize,
    faults: Faults,
) -> Result<Ran, Fail> {
    let step = step.max(1);
    let mut source = MemorySource::new(bytes, step, vec![in alloc; faults.read]?);
    let mut out = MemorySink::new(alloc, step, vec![in alloc; faults.write]?);
    let mut diag = MemorySink::new(alloc, step, vec![in alloc; faults.tell]?);
    if out.reserve(4096).is_err() || diag.reserve(4096).is_err() {
        return Err(Fail::new("no room for the sinks"));
    }
    let host = Box::new(alloc, ListHost::new(alloc))?;
    let status = prepack(alloc, &words, &mut source, &mut out, &mut diag, host);
    Ok(Ran { status, out, diag })
}

/// Runs `eval` on a text.
pub fn eval(alloc: Global, text: &str, step: usize, faults: Faults) -> Result<Ran, Fail> {
    let words = vec![in alloc; String::from_str(alloc, "eval")?]?;
    run(
        alloc,
        words,
        Vec::from_slice(alloc, text.as_bytes())?,
        step,
        faults,
    )
}

#[test]
fn residuals(rt: HostRuntime) -> Result<(), Fail> {
    for (text, residual) in [
        ("", ""),
        ("\n \n", ""),
        ("var x = 1 + 2;", "var x = 3;\n"),
        (
            "var m = 9007199254740990 + 1;",
            "var m = 9007199254740991;\n",
        ),
        ("var a = 5; var b = a - 7;", "var a = 5, b = -2;\n"),
        ("var a = b; var b = 1;", "var a, b = 1;\n"),
        ("var a = 1; var a = 2;", "var a = 2;\n"),
        ("var a = 1, b = a, c;", "var a = 1, b = 1, c;\n"),
        ("var b = 1; var a = b - 2;", "var b = 1, a = -1;\n"),
        ("var a = 10 - 3 - 2;", "var a = 5;\n"),
        ("var a = 1 + -2, b = - 5;", "var a = -1, b = -5;\n"),
        ("var\na\n=\n0\n;\n", "var a = 0;\n"),
        ("var x = 1\nvar y = 2", "var x = 1, y = 2;\n"),
        ("var x = 1", "var x = 1;\n"),
        ("var\ta = 1; // one", "var a = 1;\n"),
        ("var a = 1 /* + 5 */ + 2", "var a = 3;\n"),
        ("var a = 1+-2;", "var a = -1;\n"),
        ("var a = 0x10;", "var a = 16;\n"),
        ("var a = (1), b = -(2);", "var a = 1, b = -2;\n"),
        ("var a = 1 - (2 - 3);", "var a = 2;\n"),
        (
            "var a = 5; var b = a - (3 - (1 + a));",
            "var a = 5, b = 8;\n",
        ),
        ("var a=-1;var $_9=a+a;", "var a = -1, $_9 = -2;\n"),
        (
            "var a = 1+1+1+1+1+1+1+1+1+1+1+1+1+1+1+1+1+1+1+1;",
            "var a = 20;\n",
        ),
        (
            "var l = -9007199254740991, g = l + 9007199254740991;",
            "var l = -9007199254740991, g = 0;\n",
        ),
    ] {
        let ran = eval(rt.alloc(), text, 4096, NO_FAULTS)?;
        assert_eq!(rt; ran.status, Status::Done, "at {text}");
        assert_eq!(rt; ran.out.bytes(), residual.as_bytes(), "at {text}");
        assert_eq!(rt; ran.diag.bytes(), b"".as_slice(), "at {text}");
    }
    Ok(())
}

#[test]
fn stuck(rt: HostRuntime) -> Result<(), Fail> {
    for (text, line) in [
        (
            "var m = 9007199254740990 + 2;",
            "stuck at 8: leaves unsafe []\n",
        ),
        (
            "var a = -9007199254740991 - 1;",
            "stuck at 8: leaves unsafe []\n",
        ),
        ("var a = a + 1;", "stuck at 8: leaves not-a-number []\n"),
        (
            "var a = 1, b = 2 + a + c; var c;",
            "stuck at 15: leaves not-a-number []\n",
        ),
        ("var x = -0;", "stuck at 8: leaves minus-zero []\n"),
        ("var x = 1 + -0;", "stuck at 12: leaves minus-zero []\n"),
        (
            "var a = 1 - (0 - a);",
            "stuck at 13: leaves not-a-number []\n",
        ),
    ] {
        let ran = eval(rt.alloc(), text, 4096, NO_FAULTS)?;
        assert_eq!(rt; ran.status, Status::Stuck, "at {text}");
        assert_eq!(rt; ran.out.bytes(), b"".as_slice(), "at {text}");
        assert_eq!(rt; ran.diag.bytes(), line.as_bytes(), "at {text}");
    }
    Ok(())
}

#[test]
fn usage(rt: HostRuntime) -> Result<(), Fail> {
    let alloc = rt.alloc();
    for line in [
        "",
        "--help",
        "evil",
        "run",
        "eval x",
        "eval eval",
        "--steps 5 eval",
        "EVAL",
    ] {
        let mut words = Vec::new(alloc);
        for word in line.split_whitespace() {
            words.push(String::from_str(alloc, word)?)?;
        }
        // A read would fail, so that the status shows that there was none.
        let faults = Faults {
            read: 1,
            write: 0,
            tell: 0,
        };
        let ran = run(alloc, words, Vec::new(alloc), 4096, faults)?;
        assert_eq!(rt; ran.status, Status::Usage, "at {line}");
        assert_eq!(rt; ran.out.bytes(), b"".as_slice(), "at {line}");
        assert_eq!(rt;
            ran.diag.bytes(),
            b"usage: prepack [--steps N] eval | run ITEM.. | drill N\n".as_slice(),
            "at {line}"
        );
    }
    Ok(())
}

#[test]
fn each_read_fails(rt: HostRuntime) -> Result<(), Fail> {
    // 14 bytes and the end, one a call.
    for call in 1..17 {
        let faults = Faults {
            read: call,
            write: 0,
            tell: 0,
        };
        let ran = eval(rt.alloc(), "var x = 1 + 2;", 1, faults)?;
        if call <= 15 {
            assert_eq!(rt; ran.status, Status::ReadFault, "at {call}");
            assert_eq!(rt; ran.out.bytes(), b"".as_slice(), "at {call}");
            assert_eq!(rt; ran.diag.bytes(), b"read fault\n".as_slice(), "at {call}");
        } else {
            assert_eq!(rt; ran.status, Status::Done, "at {call}");
            assert_eq!(rt; ran.out.bytes(), b"var x = 3;\n".as_slice(), "at {call}");
        }
    }
    Ok(())
}

#[test]
fn each_write_fails(rt: HostRuntime) -> Result<(), Fail> {
    // 11 bytes, one a call.
    for (call, held) in [
        (1, ""),
        (2, "v"),
        (5, "var "),
        (10, "var x = 3"),
        (11, "var x = 3;"),
    ] {
        let faults = Faults {
            read: 0,
            write: call,
            tell: 0,
        };
        let ran = eval(rt.alloc(), "var x = 1 + 2;", 1, faults)?;
        assert_eq!(rt; ran.status, Status::WriteFault, "at {call}");
        assert_eq!(rt; ran.out.bytes(), held.as_bytes(), "at {call}");
        assert_eq!(rt; ran.diag.bytes(), b"write fault\n".as_slice(), "at {call}");
    }
    let four = Faults {
        read: 0,
        write: 2,
        tell: 0,
    };
    let ran = eval(rt.alloc(), "var x = 1 + 2;", 4, four)?;
    assert_eq!(rt; ran.status, Status::WriteFault);
    assert_eq!(rt; ran.out.bytes(), b"var ".as_slice());
    Ok(())
}

#[test]
fn each_line_fails(rt: HostRuntime) -> Result<(), Fail> {
    let line = "stuck at 8: leaves minus-zero []\n";
    for call in 1..35 {
        let faults = Faults {
            read: 0,
            write: 0,
            tell: call,
        };
        let ran = eval(rt.alloc(), "var x = -0;", 1, faults)?;
        assert_eq!(rt; ran.status, Status::Stuck, "at {call}");
        let held = line.get(..call as usize - 1).unwrap_or(line);
        assert_eq!(rt; ran.diag.bytes(), held.as_bytes(), "at {call}");
    }
    Ok(())
}

#[test]
fn largest_source(rt: HostRuntime) -> Result<(), Fail> {
    let alloc = rt.alloc();
    for (count, status, line) in [
        (1_048_576, Status::Done, ""),
        (1_048_577, Status::TooLarge, "source over 1048576 bytes\n"),
    ] {
        let words = vec![in alloc; String::from_str(alloc, "eval")?]?;
        let ran = run(alloc, words, vec![in alloc; b' '; count]?, 4096, NO_FAULTS)?;
        assert_eq!(rt; ran.status, status, "at {count}");
        assert_eq!(rt; ran.out.bytes(), b"".as_slice(), "at {count}");
        assert_eq!(rt; ran.diag.bytes(), line.as_bytes(), "at {count}");
    }
    Ok(())
}
