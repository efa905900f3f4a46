// An operand, and a value of the sheet's stack, as one number: made of a type's number and a mark, and read back.
#![tactic(auto)]

ghost use Rattle.std.specs.Prelude.{◌≡◌, ◌<◌, ◌^◌};
ghost use Rattle.held.specs.Held.{value_of, number_of, mark_of};

use answer::TypeNo;

// What is added to a type's number where the value is known only when running.
// Stays: a type and its mark are one number, since C's operands and replies are (`SWARTABELK_RUNNING`), and `number_of` and `mark_of` read it.
pub const RUNNING: u32 = 0x8000_0000;

// The value of a type's number and a mark.
pub fn value(t: TypeNo, running: bool) -> u32
    requires { t.0 < 2 ^ 31 }
    ensures { result ≡ value_of t.0 running }
{
    let number = t.0 as u32;
    if running {
        return number + RUNNING;
    }
    number
}

// The number of a value's type.
pub fn number(v: u32) -> TypeNo
    ensures { result.0 ≡ number_of v }
{
    TypeNo((v % RUNNING) as usize)
}

// Whether a value is known only when running.
pub fn running(v: u32) -> bool
    ensures { result ≡ mark_of v }
{
    RUNNING <= v
}
