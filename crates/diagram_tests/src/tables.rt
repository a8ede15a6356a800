//! Truth tables, leaves, and formulas that mean the same.

use crate::machine::Machine;
use diagrams::Chosen;
use std::alloc::Global;
use std::test::Fail;

/// Does one word of a formula: a letter is the condition of its place in the alphabet, a digit a leaf.
fn step(machine: &mut Machine, word: u8) -> Result<(), Fail> {
    match word {
        b'0'..=b'9' => machine.leaf((word - b'0') as usize),
        b'a'..=b'z' => machine.condition((word - b'a') as usize),
        b'!' => machine.not(),
        b'&' => machine.and(),
        b'?' => machine.select(),
        _ => Err(Fail::new("no word")),
    }
}

/// Makes the diagram of a formula.
fn make(machine: &mut Machine, formula: &str) -> Result<(), Fail> {
    for word in formula.bytes() {
        step(machine, word)?;
    }
    Ok(())
}

/// The truth of three conditions, as the lowest bits of a number.
fn chosen(alloc: Global, bits: u8) -> Result<Chosen, Fail> {
    let mut chosen = Chosen::new(alloc);
    for c in 0..3u32 {
        chosen.push(bits >> c & 1 == 1)?;
    }
    Ok(chosen)
}

/// What a formula is at each truth of three conditions, one digit each.
fn table(alloc: Global, formula: &str) -> Result<String, Fail> {
    let mut machine = Machine::new(alloc);
    make(&mut machine, formula)?;
    let mut out = String::new(alloc);
    for bits in 0..8u8 {
        let n = machine.at(&chosen(alloc, bits)?)?;
        out.push_str(format!(in alloc; "{n}")?.as_str())?;
    }
    Ok(out)
}

/// Formulas, and what they are where of a, b, c none holds, a, b, both, c, c and a, c and b, all.
const TABLES: [(&str, &str); 18] = [
    ("7", "77777777"),
    ("a", "01010101"),
    ("c", "00001111"),
    ("a!", "10101010"),
    ("0!", "11111111"),
    ("1!", "00000000"),
    ("ab&", "00010001"),
    ("ca&", "00000101"),
    ("ab&c&", "00000001"),
    ("ab!&", "01000100"),
    ("a0&", "00000000"),
    ("1c&", "00001111"),
    ("abc?", "00011011"),
    ("cba?", "01010011"),
    ("a57?", "75757575"),
    ("ab&35?", "55535553"),
    ("a12?b34?c?", "44334433"),
    ("bc6a12??0?", "00210066"),
];

#[test]
fn tables(rt: HostRuntime) -> Result<(), Fail> {
    for (formula, wanted) in &TABLES {
        assert_eq!(rt;
            table(rt.alloc(), formula)?.as_str(),
            *wanted,
            "of {formula}"
        );
    }
    Ok(())
}

/// Formulas, and how many leaves they have.
const LEAVES: [(&str, usize); 8] = [
    ("7", 1),
    ("a", 2),
    ("ab&", 2),
    ("a55?", 1),
    ("a5b67??", 3),
    ("a12?b34?c?", 2),
    ("ca12?b34??", 4),
    ("a!a&", 1),
];

/// At each truth of three conditions the one guard that holds is that of the leaf which is read.
#[test]
fn leaves(rt: HostRuntime) -> Result<(), Fail> {
    let alloc = rt.alloc();
    for (formula, count) in &LEAVES {
        let mut machine = Machine::new(alloc);
        make(&mut machine, formula)?;
        for bits in 0..8u8 {
            let chosen = chosen(alloc, bits)?;
            let read = machine.at(&chosen)?;
            assert_eq!(rt; machine.leaves(&chosen)?, (*count, 1, read), "of {formula}");
        }
    }
    Ok(())
}

/// Two formulas, and whether they mean the same.
const PAIRS: [(&str, &str, bool); 14] = [
    ("ab&", "ba&", true),
    ("a!!", "a", true),
    ("ab&!", "a!1b!?", true),
    ("abc?", "a!cb?", true),
    ("ab&c&", "abc&&", true),
    ("a1b?", "b1a?", true),
    ("a10?", "a", true),
    ("a55?", "5", true),
    ("aa!&", "0", true),
    ("cab7?5?", "c!5ab7??", true),
    ("a", "b", false),
    ("a", "a!", false),
    ("0", "1", false),
    ("a56?", "a57?", false),
];

#[test]
fn equal_meanings(rt: HostRuntime) -> Result<(), Fail> {
    for (one, other, wanted) in &PAIRS {
        let mut machine = Machine::new(rt.alloc());
        make(&mut machine, one)?;
        make(&mut machine, other)?;
        assert_eq!(rt; machine.same()?, *wanted, "{one} and {other}");
    }
    Ok(())
}
