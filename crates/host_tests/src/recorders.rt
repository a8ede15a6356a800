use crate::shown::{record, reply, text};
use host_box::{CountHost, FailHost, Host, ListHost, RecordHost};
use js_value::{Kind, Primitive, Prims};
use std::alloc::Global;
use std::test::Fail;

/// What one more call of a recorder comes to, with two arguments.
fn asked(alloc: Global, host: &mut RecordHost, kind: Kind) -> Result<String, Fail> {
    let name = text(alloc, "now")?;
    let mut args = Prims::new(alloc);
    if args.push(Primitive::Text(text(alloc, "a")?)).is_err() {
        return Err(Fail::new("no memory for an argument"));
    }
    if args.push(Primitive::Undefined).is_err() {
        return Err(Fail::new("no memory for an argument"));
    }
    reply(alloc, &host.call(&name, &args, kind))
}

/// Puts two answers in by the recorder's own calls: one that is given, and one that is thrown.
fn supply_two(alloc: Global, host: &mut RecordHost) -> Result<(), Fail> {
    if host.supply(Primitive::Number(7)).is_err() {
        return Err(Fail::new("no memory for an answer"));
    }
    if host
        .supply_throw(Primitive::Text(text(alloc, "gone")?))
        .is_err()
    {
        return Err(Fail::new("no memory for an answer"));
    }
    Ok(())
}

#[test]
fn boxed_queue(rt: HostRuntime) -> Result<(), Fail> {
    let alloc = rt.alloc();
    let mut queue = ListHost::new(alloc);
    assert!(rt; queue.supply(Primitive::Boolean(true)) == Ok(()));
    let mut host = RecordHost::new(alloc, Box::new(alloc, queue)?);
    assert_eq!(rt; record(alloc, &host)?.as_str(), "ended 0");
    supply_two(alloc, &mut host)?;
    assert_eq!(rt;
        asked(alloc, &mut host, Kind::Boolean)?.as_str(),
        "given true"
    );
    for wanted in ["given 7", "thrown \"gone\"", "ended", "ended"] {
        assert_eq!(rt; asked(alloc, &mut host, Kind::Number)?.as_str(), wanted);
    }
    assert_eq!(rt;
        record(alloc, &host)?.as_str(),
        "boolean \"now\" \"a\";undefined; = true
number \"now\" \"a\";undefined; = 7
number \"now\" \"a\";undefined; throws \"gone\"
ended 2"
    );
    Ok(())
}

#[test]
fn queue_without_a_box(rt: HostRuntime) -> Result<(), Fail> {
    let alloc = rt.alloc();
    let mut queue = ListHost::new(alloc);
    assert!(rt; queue.supply_throw(Primitive::Null) == Ok(()));
    let mut host = RecordHost::of_list(alloc, queue);
    supply_two(alloc, &mut host)?;
    for wanted in ["thrown null", "given 7", "thrown \"gone\"", "ended"] {
        assert_eq!(rt; asked(alloc, &mut host, Kind::Text)?.as_str(), wanted);
    }
    assert_eq!(rt;
        record(alloc, &host)?.as_str(),
        "text \"now\" \"a\";undefined; throws null
text \"now\" \"a\";undefined; = 7
text \"now\" \"a\";undefined; throws \"gone\"
ended 1"
    );
    Ok(())
}

#[test]
fn boxed_count(rt: HostRuntime) -> Result<(), Fail> {
    let alloc = rt.alloc();
    let mut host = RecordHost::new(alloc, Box::new(alloc, CountHost::new())?);
    supply_two(alloc, &mut host)?;
    for wanted in ["given 1", "given 2"] {
        assert_eq!(rt; asked(alloc, &mut host, Kind::Number)?.as_str(), wanted);
    }
    assert_eq!(rt;
        record(alloc, &host)?.as_str(),
        "number \"now\" \"a\";undefined; = 1
number \"now\" \"a\";undefined; = 2
ended 0"
    );
    Ok(())
}

/// A call that failed, and what the recorder of three calls then keeps.
const FAILED: [(u64, [&str; 3], &str); 4] = [
    (
        1,
        ["failed", "given 7", "thrown \"gone\""],
        "number \"now\" \"a\";undefined; = 7\nnumber \"now\" \"a\";undefined; throws \"gone\"\nended 0",
    ),
    (
        2,
        ["given 7", "failed", "thrown \"gone\""],
        "number \"now\" \"a\";undefined; = 7\nnumber \"now\" \"a\";undefined; throws \"gone\"\nended 0",
    ),
    (
        3,
        ["given 7", "thrown \"gone\"", "failed"],
        "number \"now\" \"a\";undefined; = 7\nnumber \"now\" \"a\";undefined; throws \"gone\"\nended 0",
    ),
    (
        4,
        ["given 7", "thrown \"gone\"", "ended"],
        "number \"now\" \"a\";undefined; = 7\nnumber \"now\" \"a\";undefined; throws \"gone\"\nended 1",
    ),
];

#[test]
fn each_call_fails(rt: HostRuntime) -> Result<(), Fail> {
    let alloc = rt.alloc();
    for (fail, replies, kept) in &FAILED {
        let inner = Box::new(alloc, FailHost::new(alloc, vec![in alloc; *fail]?))?;
        let mut host = RecordHost::new(alloc, inner);
        supply_two(alloc, &mut host)?;
        for wanted in replies {
            let came = asked(alloc, &mut host, Kind::Number)?;
            assert_eq!(rt; came.as_str(), *wanted, "where {fail} fails");
        }
        assert_eq!(rt; record(alloc, &host)?.as_str(), *kept, "where {fail} fails");
    }
    Ok(())
}
