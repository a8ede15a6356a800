//! Properties as a plain list of pairs, and numbers as if by chance.

use js_value::Text;
use std::alloc::Global;
use std::test::Fail;

/// Keys as numbers, with their values, in the order of their creation.
#[derive(Drop)]
pub struct Plain {
    pub pairs: Vec<(usize, usize)>,
}

impl Plain {
    pub fn new(alloc: Global) -> Plain {
        Plain {
            pairs: Vec::new(alloc),
        }
    }

    fn place(&self, key: usize) -> Option<usize> {
        self.pairs.iter().position(|pair| pair.0 == key)
    }

    pub fn get(&self, key: usize) -> Option<usize> {
        for (k, v) in self.pairs.as_slice() {
            if *k == key {
                return Some(*v);
            }
        }
        None
    }

    /// Gives a key that is there another value.
    pub fn replace(&mut self, key: usize, value: usize) -> bool {
        for pair in &mut self.pairs {
            if pair.0 == key {
                pair.1 = value;
                return true;
            }
        }
        false
    }

    pub fn insert(&mut self, key: usize, value: usize) -> Result<(), Fail> {
        if !self.replace(key, value) {
            self.pairs.push((key, value))?;
        }
        Ok(())
    }

    pub fn remove(&mut self, key: usize) -> bool {
        match self.place(key) {
            Some(i) if i < self.pairs.len() => {
                self.pairs.remove(i);
                true
            }
            _ => false,
        }
    }
}

/// The key of a number.
pub fn key(alloc: Global, n: usize) -> Result<Text, Fail> {
    let mut units = Vec::new(alloc);
    units.push((n & 0xffff) as u16)?;
    units.push((n >> 16 & 0xffff) as u16)?;
    Ok(Text::from_vec(units))
}

/// Numbers as if by chance, the same in each run.
#[derive(Drop)]
pub struct Chance {
    state: u64,
}

impl Chance {
    pub fn new() -> Chance {
        Chance { state: 1 }
    }

    /// A number below this one, or 0.
    pub fn below(&mut self, end: usize) -> usize {
        self.state = self
            .state
            .wrapping_mul(6_364_136_223_846_793_005)
            .wrapping_add(1_442_695_040_888_963_407);
        (self.state >> 33) as usize % end.max(1)
    }
}
