//! Large tables. Each test makes and drops as many properties as the others, in tables of its size, so that its time tells what one
//! property costs there.

use crate::plain::key;
use property_table::PropertyTable;
use std::alloc::Global;
use std::test::Fail;

/// How many properties a test makes.
const MADE: usize = 400_000;

/// A table of this size: the value of each key is its number.
fn filled(alloc: Global, size: usize) -> Result<PropertyTable<usize>, Fail> {
    let mut table = PropertyTable::new(alloc);
    for n in 0..size {
        table.insert(alloc, &key(alloc, n)?, n)?;
    }
    Ok(table)
}

/// Whether each key has its value.
fn are_found(alloc: Global, table: &PropertyTable<usize>, size: usize) -> Result<bool, Fail> {
    for n in 0..size {
        if table.get(&key(alloc, n)?).copied() != Some(n) {
            return Ok(false);
        }
    }
    Ok(true)
}

/// Whether the properties stand in the order of their values.
fn are_in_order(table: &PropertyTable<usize>, size: usize) -> bool {
    let mut properties = table.iter();
    for n in 0..size {
        match properties.next() {
            Some((_, value)) if *value == n => {}
            _ => return false,
        }
    }
    properties.next().is_none()
}

/// Whether each key was there to be removed, the first or the last one first.
fn are_removed(
    alloc: Global,
    table: &mut PropertyTable<usize>,
    size: usize,
    from_end: bool,
) -> Result<bool, Fail> {
    for i in 0..size {
        let n = if from_end { size - 1 - i } else { i };
        if !table.remove(&key(alloc, n)?) {
            return Ok(false);
        }
    }
    Ok(table.len() == 0)
}

/// Fills tables of this size, and says whether each had as many properties.
fn fills(alloc: Global, size: usize) -> Result<bool, Fail> {
    let mut all = true;
    for _ in 0..MADE / size.max(1) {
        all = all && filled(alloc, size)?.len() == size;
    }
    Ok(all)
}

/// Fills tables of this size and reads them, by their keys and in order.
fn reads(alloc: Global, size: usize) -> Result<bool, Fail> {
    let mut all = true;
    for _ in 0..MADE / size.max(1) {
        let table = filled(alloc, size)?;
        all = all && are_found(alloc, &table, size)? && are_in_order(&table, size);
    }
    Ok(all)
}

/// Fills tables of this size and empties them.
fn empties(alloc: Global, size: usize, from_end: bool) -> Result<bool, Fail> {
    let mut all = true;
    for _ in 0..MADE / size.max(1) {
        let mut table = filled(alloc, size)?;
        all = all && are_removed(alloc, &mut table, size, from_end)?;
    }
    Ok(all)
}

/// Where each new property is followed by the removal of the oldest of nine, a table stays small.
#[test]
fn queue_of_a_million(rt: HostRuntime) -> Result<(), Fail> {
    let alloc = rt.alloc();
    let mut table = PropertyTable::new(alloc);
    for n in 0..1_000_000usize {
        table.insert(alloc, &key(alloc, n)?, n)?;
        if n >= 8 {
            assert!(rt; table.remove(&key(alloc, n - 8)?), "at {n}");
        }
    }
    assert_eq!(rt; table.len(), 8);
    let mut properties = table.iter();
    for n in 999_992..1_000_000usize {
        let value = properties.next().map_or(0, |property| *property.1);
        assert_eq!(rt; value, n);
    }
    Ok(())
}

#[test]
fn filled_1000(rt: HostRuntime) -> Result<(), Fail> {
    assert!(rt; fills(rt.alloc(), 1_000)?);
    Ok(())
}

#[test]
fn filled_10000(rt: HostRuntime) -> Result<(), Fail> {
    assert!(rt; fills(rt.alloc(), 10_000)?);
    Ok(())
}

#[test]
fn filled_100000(rt: HostRuntime) -> Result<(), Fail> {
    assert!(rt; fills(rt.alloc(), 100_000)?);
    Ok(())
}

#[test]
fn filled_200000(rt: HostRuntime) -> Result<(), Fail> {
    assert!(rt; fills(rt.alloc(), 200_000)?);
    Ok(())
}

#[test]
fn read_1000(rt: HostRuntime) -> Result<(), Fail> {
    assert!(rt; reads(rt.alloc(), 1_000)?);
    Ok(())
}

#[test]
fn read_10000(rt: HostRuntime) -> Result<(), Fail> {
    assert!(rt; reads(rt.alloc(), 10_000)?);
    Ok(())
}

#[test]
fn read_100000(rt: HostRuntime) -> Result<(), Fail> {
    assert!(rt; reads(rt.alloc(), 100_000)?);
    Ok(())
}

#[test]
fn read_200000(rt: HostRuntime) -> Result<(), Fail> {
    assert!(rt; reads(rt.alloc(), 200_000)?);
    Ok(())
}

#[test]
fn emptied_from_front_1000(rt: HostRuntime) -> Result<(), Fail> {
    assert!(rt; empties(rt.alloc(), 1_000, false)?);
    Ok(())
}

#[test]
fn emptied_from_front_10000(rt: HostRuntime) -> Result<(), Fail> {
    assert!(rt; empties(rt.alloc(), 10_000, false)?);
    Ok(())
}

#[test]
fn emptied_from_front_100000(rt: HostRuntime) -> Result<(), Fail> {
    assert!(rt; empties(rt.alloc(), 100_000, false)?);
    Ok(())
}

#[test]
fn emptied_from_front_200000(rt: HostRuntime) -> Result<(), Fail> {
    assert!(rt; empties(rt.alloc(), 200_000, false)?);
    Ok(())
}

#[test]
fn emptied_from_end_1000(rt: HostRuntime) -> Result<(), Fail> {
    assert!(rt; empties(rt.alloc(), 1_000, true)?);
    Ok(())
}

#[test]
fn emptied_from_end_10000(rt: HostRuntime) -> Result<(), Fail> {
    assert!(rt; empties(rt.alloc(), 10_000, true)?);
    Ok(())
}

#[test]
fn emptied_from_end_100000(rt: HostRuntime) -> Result<(), Fail> {
    assert!(rt; empties(rt.alloc(), 100_000, true)?);
    Ok(())
}

#[test]
fn emptied_from_end_200000(rt: HostRuntime) -> Result<(), Fail> {
    assert!(rt; empties(rt.alloc(), 200_000, true)?);
    Ok(())
}
