// Bytes put into a lent output. What stands past its end is not written, but counted: so a text's length is known from an output of none.
// And the number that a text is.
#![tactic(auto)]

ghost use Rattle.std.specs.Prelude.{◌≡◌, [], ◌∷◌, ◌++◌, ◌+◌, ◌*◌, ◌<◌, length};
ghost use Rattle.text.specs.Text.{decimal, is_digit, number_in, Put, far};

// A byte at a place, or nothing past the end of the output; the place after it.
pub fn put_byte(out: &mut [u8], at: usize, b: u8) -> usize
    requires { at < far * 4 }
    ensures { Put out.old at (b ∷ []) result out.new }
{
    if out.len() <= at {
        return at + 1;
    }
    out[at] = b;
    at + 1
}

// The bytes of a text from a place on.
pub fn put_text(out: &mut [u8], at: usize, text: &[u8]) -> usize
    requires { at + length text.now < far * 4 }
    ensures { Put out.old at text.now result out.new }
{
    for (j, b) in text.iter().enumerate() {
        put_byte(out, at + j, *b);
    }
    at + text.len()
}

// n in decimal.
pub fn put_number(out: &mut [u8], at: usize, n: usize) -> usize
    requires { at < far * 2 }
    ensures { Put out.old at (decimal n) result out.new }
{
    let last = b'0' + (n % 10) as u8;
    if n < 10 {
        return put_byte(out, at, last);
    }
    let next = put_number(out, at, n / 10);
    put_byte(out, next, last)
}

// A text, then a number.
pub fn put_after(out: &mut [u8], at: usize, text: &[u8], n: usize) -> usize
    requires { at + length text.now < far * 2 }
    ensures { Put out.old at (text.now ++ decimal n) result out.new }
{
    let a = put_text(out, at, text);
    put_number(out, a, n)
}

// Whether a byte is a digit.
fn is_digit(b: u8) -> bool
    ensures { result ≡ is_digit b }
{
    (b'0'..=b'9').contains(&b)
}

// What a text is that is no number, and where numbers have more than 32 bits.
const NO_NUMBER: Option<u32> = None;

const LIMIT: u64 = 4294967296;

// The number that a text is: one or more digits, zeros in front allowed, of 32 bits. Any other text is none.
// Stays: std's `parse` takes a `+` in front of the digits, and a `str`; document 01 has digits alone, and a text here is any bytes.
pub fn number_in(text: &[u8]) -> Option<u32>
    ensures { result ≡ number_in text.now }
{
    if text.is_empty() {
        return NO_NUMBER;
    }
    let mut n: u64 = 0;
    for b in text {
        if !is_digit(*b) {
            return NO_NUMBER;
        }
        n = n * 10 + u64::from(*b - b'0');
        if LIMIT <= n {
            return NO_NUMBER;
        }
    }
    Some(n as u32)
}
