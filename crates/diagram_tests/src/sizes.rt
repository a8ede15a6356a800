//! Diagrams over many conditions.

use crate::machine::Machine;
use diagrams::Chosen;
use std::alloc::Global;
use std::test::Fail;

/// Every so-manieth of some conditions holds.
fn every(alloc: Global, step: usize, count: usize) -> Result<Chosen, Fail> {
    let mut chosen = Chosen::new(alloc);
    for c in 0..count {
        chosen.push(c % step.max(1) == 0)?;
    }
    Ok(chosen)
}

/// How many of forty conditions hold.
#[test]
fn sum_of_forty(rt: HostRuntime) -> Result<(), Fail> {
    let alloc = rt.alloc();
    let mut machine = Machine::new(alloc);
    machine.leaf(0)?;
    for c in 0..40 {
        machine.count(c)?;
    }
    for (step, wanted) in [(1, 40), (2, 20), (3, 14), (7, 6), (41, 1)] {
        let chosen = every(alloc, step, 40)?;
        assert_eq!(rt; machine.at(&chosen)?, wanted);
        assert_eq!(rt; machine.leaves(&chosen)?, (41, 1, wanted));
    }
    assert!(rt; machine.nodes()? < 500_000);
    Ok(())
}

/// Whether an odd number of twenty conditions hold.
#[test]
fn parity_of_twenty(rt: HostRuntime) -> Result<(), Fail> {
    let alloc = rt.alloc();
    let mut machine = Machine::new(alloc);
    machine.leaf(0)?;
    for c in 0..20 {
        machine.flip(c)?;
    }
    for (step, wanted) in [(1, 0), (2, 0), (3, 1), (4, 1), (21, 1)] {
        assert_eq!(rt; machine.at(&every(alloc, step, 20)?)?, wanted);
    }
    assert!(rt; machine.nodes()? < 1_000);
    Ok(())
}

/// Conditions joined from the last to the first, and from the first to the last, are one diagram.
#[test]
fn joined_both_ways(rt: HostRuntime) -> Result<(), Fail> {
    let mut machine = Machine::new(rt.alloc());
    machine.leaf(1)?;
    for c in (0..2_000).rev() {
        machine.condition(c)?;
        machine.and()?;
    }
    machine.leaf(1)?;
    for c in 0..2_000 {
        machine.condition(c)?;
        machine.and()?;
    }
    assert!(rt; machine.same()?);
    Ok(())
}

/// A diagram as deep as a hundred thousand conditions takes no stack.
#[test]
fn deep(rt: HostRuntime) -> Result<(), Fail> {
    let alloc = rt.alloc();
    let mut machine = Machine::new(alloc);
    machine.leaf(1)?;
    for c in (0..100_000).rev() {
        machine.condition(c)?;
        machine.and()?;
    }
    machine.not()?;
    let chosen = every(alloc, 1, 100_000)?;
    assert_eq!(rt; machine.at(&chosen)?, 0);
    assert_eq!(rt; machine.leaves(&chosen)?, (2, 1, 0));
    Ok(())
}
