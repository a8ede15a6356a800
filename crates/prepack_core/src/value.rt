ghost use Rattle.std.specs.Prelude.{IsTrue};
ghost use Rattle.js_value.specs.Numbers.{is_safe};

/// A number of the profile, from -(2^53 - 1) to 2^53 - 1.
#[derive(Clone, Copy, Debug)]
pub struct Number {
    pub value: i64,
    ghost in_range: { IsTrue (is_safe value) },
}

/// A value of a variable of a simple script.
#[derive(Clone, Copy, Debug)]
pub enum Value {
    Undefined,
    Number(Number),
}
