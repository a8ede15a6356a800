use crate::shown::{reply, text};
use host_box::{CountHost, FailHost, Host, ListHost};
use js_value::{Kind, Primitive, Prims};
use std::alloc::Global;
use std::test::Fail;

/// What one more call comes to.
fn asked<H: Host>(alloc: Global, host: &mut H) -> Result<String, Fail> {
    let name = text(alloc, "now")?;
    let args = Prims::new(alloc);
    reply(alloc, &host.call(&name, &args, Kind::Number))
}

#[test]
fn queue_of_answers(rt: HostRuntime) -> Result<(), Fail> {
    let alloc = rt.alloc();
    let mut host = ListHost::new(alloc);
    assert!(rt; host.supply(Primitive::Number(7)) == Ok(()));
    assert!(rt; host.supply_throw(Primitive::Number(8)) == Ok(()));
    for wanted in ["given 7", "thrown 8", "ended", "ended"] {
        assert_eq!(rt; asked(alloc, &mut host)?.as_str(), wanted);
    }
    Ok(())
}

#[test]
fn count_of_calls(rt: HostRuntime) -> Result<(), Fail> {
    let alloc = rt.alloc();
    let mut host = CountHost::new();
    assert!(rt; host.supply(Primitive::Number(7)) == Ok(()));
    assert!(rt; host.supply_throw(Primitive::Number(8)) == Ok(()));
    for wanted in ["given 1", "given 2", "given 3"] {
        assert_eq!(rt; asked(alloc, &mut host)?.as_str(), wanted);
    }
    Ok(())
}

#[test]
fn each_call_fails(rt: HostRuntime) -> Result<(), Fail> {
    let alloc = rt.alloc();
    for (fail, wanted) in [
        ([0, 5], ["given 7", "thrown 8", "ended", "ended"]),
        ([1, 1], ["failed", "given 7", "thrown 8", "ended"]),
        ([2, 2], ["given 7", "failed", "thrown 8", "ended"]),
        ([3, 3], ["given 7", "thrown 8", "failed", "ended"]),
        ([4, 4], ["given 7", "thrown 8", "ended", "failed"]),
        ([4, 2], ["given 7", "failed", "thrown 8", "failed"]),
    ] {
        let mut host = FailHost::new(alloc, Vec::from_slice(alloc, &fail)?);
        assert!(rt; host.supply(Primitive::Number(7)) == Ok(()));
        assert!(rt; host.supply_throw(Primitive::Number(8)) == Ok(()));
        for line in wanted {
            assert_eq!(rt;
                asked(alloc, &mut host)?.as_str(),
                line,
                "where {} fails",
                fail[0]
            );
        }
    }
    Ok(())
}
