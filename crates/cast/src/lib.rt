// Casts that lose nothing. A caller learns the value from the promise, and needs no fact of its own.
#![tactic(auto)]

ghost use Rattle.std.specs.Prelude.{◌≡◌};

// A byte as a number of a wider type: an index, a word of a table, a long number. Of each, `from_gives` says that it is the byte.
pub fn wide<T: From<u8>>(byte: u8) -> T
    ensures { T.from_gives byte result }
{
    T::from(byte)
}

// A word of a table as an index.
// Stays: std has no `From<u32>` for `usize`, so this and `word64` have no bound in common.
pub fn word(value: u32) -> usize
    ensures { result ≡ value }
{
    value as usize
}

// A word of a table as a long number.
pub fn word64(value: u32) -> u64
    ensures { result ≡ value }
{
    u64::from(value)
}
