//! Generated calls of a table, compared with a plain list of pairs.

use crate::plain::{Chance, Plain, key};
use property_table::PropertyTable;
use std::alloc::Global;
use std::test::Fail;

/// Whether a table has just these pairs, in this order.
fn has_pairs(alloc: Global, table: &PropertyTable<usize>, plain: &Plain) -> Result<bool, Fail> {
    let mut properties = table.iter();
    for (n, value) in plain.pairs.as_slice() {
        let wanted = key(alloc, *n)?;
        match properties.next() {
            Some((name, v)) if *name == wanted && *v == *value => {}
            _ => return Ok(false),
        }
    }
    Ok(properties.next().is_none())
}

/// Ten thousand calls at sixty keys, some of which are there at a time.
#[test]
fn as_a_plain_list(rt: HostRuntime) -> Result<(), Fail> {
    let alloc = rt.alloc();
    let mut table = PropertyTable::new(alloc);
    let mut plain = Plain::new(alloc);
    let mut chance = Chance::new();
    for call in 0..10_000usize {
        let n = chance.below(60);
        let name = key(alloc, n)?;
        match chance.below(5) {
            0 | 1 => {
                table.insert(alloc, &name, call)?;
                plain.insert(n, call)?;
            }
            2 | 3 => assert_eq!(rt; table.remove(&name), plain.remove(n), "at {call}"),
            _ => assert_eq!(rt; table.get(&name).copied(), plain.get(n), "at {call}"),
        }
        assert_eq!(rt; table.len(), plain.pairs.len(), "at {call}");
        assert!(rt; has_pairs(alloc, &table, &plain)?, "at {call}");
    }
    Ok(())
}

/// A thousand calls that replace a value or ask for a position, while properties come and go.
#[test]
fn positions_and_replaced_values(rt: HostRuntime) -> Result<(), Fail> {
    let alloc = rt.alloc();
    let mut table = PropertyTable::new(alloc);
    let mut plain = Plain::new(alloc);
    let mut chance = Chance::new();
    for call in 0..1_000usize {
        let n = chance.below(20);
        let name = key(alloc, n)?;
        match chance.below(4) {
            0 => {
                table.insert(alloc, &name, call)?;
                plain.insert(n, call)?;
            }
            1 => assert_eq!(rt; table.remove(&name), plain.remove(n), "at {call}"),
            _ => assert_eq!(rt;
                table.replace(&name, call).is_ok(),
                plain.replace(n, call),
                "at {call}"
            ),
        }
        assert!(rt; has_pairs(alloc, &table, &plain)?, "at {call}");
        let i = chance.below(plain.pairs.len());
        if i < table.len() && i < plain.pairs.len() {
            let (name, value) = table.at(i);
            let (n, wanted) = plain.pairs[i];
            assert!(rt; *name == key(alloc, n)? && *value == wanted, "at {call}");
        }
    }
    Ok(())
}
