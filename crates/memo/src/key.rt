// What an item asks, and its key on the values of the stack.

ghost use Rattle.std.specs.Prelude.{◌+◌, ◌<◌, ◌≤◌, ◌^◌};

// What an item asks, by its code, on how many values, and whether its result is running even where they are const.
#[derive(Clone, Copy)]
pub struct Ask {
    pub code: u64,
    pub operands: usize,
    pub runs: bool,
    ghost coded: { code < 256 },
    ghost some: { 1 ≤ operands },
    ghost few: { operands ≤ 3 },
}

// What is asked and the values of its operands, as one number, the first of its two slots, where on the stack the operands begin, and the mark of what it gives.
#[derive(Clone, Copy)]
pub struct Key {
    pub number: u64,
    pub slot: usize,
    pub base: usize,
    pub running: bool,
    ghost small: { number < 2 ^ 35 },
    ghost pair: { slot + 1 < 256 },
    ghost within: { base < 64 },
}
