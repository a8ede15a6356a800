//! Inputs of a run.

use crate::plain::key;
use js_value::Primitive;
use std::test::Fail;
use worlds::Inputs;

/// The number of an input, where it is one.
fn number(value: Option<&Primitive>) -> Option<i64> {
    match value {
        Some(Primitive::Number(n)) => Some(*n),
        _ => None,
    }
}

/// A later value of a name takes the place of the earlier one.
#[test]
fn the_later_value(rt: HostRuntime) -> Result<(), Fail> {
    let alloc = rt.alloc();
    let mut inputs = Inputs::new(alloc);
    assert!(rt; inputs.get(&key(alloc, 1)?).is_none());
    inputs.insert(alloc, key(alloc, 1)?, Primitive::Number(7))?;
    inputs.insert(alloc, key(alloc, 2)?, Primitive::Number(8))?;
    assert_eq!(rt; number(inputs.get(&key(alloc, 1)?)), Some(7));
    inputs.insert(alloc, key(alloc, 1)?, Primitive::Number(9))?;
    assert_eq!(rt; number(inputs.get(&key(alloc, 1)?)), Some(9));
    assert_eq!(rt; number(inputs.get(&key(alloc, 2)?)), Some(8));
    assert!(rt; inputs.get(&key(alloc, 3)?).is_none());
    Ok(())
}
