// What lines about overloads are made of: parameters and ranks, put into a lent output. Parameters and operands are operands' numbers.
#![tactic(auto)]

ghost use Rattle.std.specs.Prelude.{◌≡◌, ◌++◌, map, ◌+◌, ◌*◌, ◌<◌, ◌≤◌, length};
ghost use Rattle.text.specs.Text.{ascii, decimal, Put, far};
ghost use Rattle.overload.specs.inner.Code.{operand};
ghost use Rattle.spell.specs.Spell.{scalar_names, named, spelling};
ghost use Rattle.weigh.specs.Weigh.{Shaped};
ghost use Rattle.phrase.specs.Phrase.{apart, signature, operand_at, ranks_of, ranks_word, ranks_text};
ghost use Rattle.phrase.specs.inner.Gap.{gap_at};

use cast::wide;
use conv::{PLAINS, SCALARS};

// The component of a vector or of a matrix, between `<` and `>`.
fn put_component(out: &mut [u8], at: usize, s: usize) -> usize
    requires { (at < far + 100) × (s < 7) }
    ensures put { Put out.old at (ascii "<" ++ named scalar_names s ++ ascii ">") result out.new }
    ensures upper_bound { result ≤ at + 34 }
{
    let a = text::put_byte(out, at, b'<');
    let b = spell::put_text(out, a, s);
    text::put_byte(out, b, b'>')
}

// The spelling of a scalar, a vector or a matrix.
pub fn put_shaped(out: &mut [u8], at: usize, x: u8) -> usize
    requires { (at < far) × (x < 91) }
    ensures put { Put out.old at (spelling (operand x)) result out.new }
    ensures upper_bound { result ≤ at + 90 }
{
    let s = wide(x % SCALARS);
    if x < SCALARS {
        return spell::put_text(out, at, s);
    }
    let shape = wide::<usize>(x / SCALARS);
    if x < PLAINS {
        let a = text::put_after(out, at, b"vec", shape + 1);
        return put_component(out, a, s);
    }
    let a = text::put_after(out, at, b"mat", (shape - 4) / 3 + 2);
    let b = text::put_after(out, a, b"x", (shape - 4) % 3 + 2);
    put_component(out, b, s)
}

// What stands between two texts, before the text at place i.
fn put_gap(out: &mut [u8], at: usize, i: usize, gap: &[u8]) -> usize
    requires { at + length gap.now < far * 2 }
    ensures { Put out.old at (gap_at i gap.now) result out.new }
{
    if i == 0 {
        return at;
    }
    text::put_text(out, at, gap)
}

// The spellings of parameters, with a comma and a blank between two.
fn put_params(out: &mut [u8], at: usize, ps: &[u8]) -> usize
    requires { (at + length ps.now * 100 ≤ far) × Shaped ps.now }
    ensures put { Put out.old at (apart (ascii ", ") (map spelling (map operand ps.now))) result out.new }
    ensures upper_bound { result ≤ at + length ps.now * 100 }
{
    let mut a = at;
    for (i, p) in ps.iter().enumerate() {
        let b = put_gap(out, a, i, b", ");
        a = put_shaped(out, b, *p);
    }
    a
}

// The parameters of an overload, in parentheses.
pub fn put_signature(out: &mut [u8], at: usize, ps: &[u8]) -> usize
    requires { (at + length ps.now * 100 + 2 ≤ far) × Shaped ps.now }
    ensures put { Put out.old at (signature (map operand ps.now)) result out.new }
    ensures upper_bound { result ≤ at + length ps.now * 100 + 2 }
{
    let a = text::put_byte(out, at, b'(');
    let b = put_params(out, a, ps);
    text::put_byte(out, b, b')')
}

// `operand 1 is `, of the operand at place 0.
pub fn put_operand(out: &mut [u8], at: usize, k: usize) -> usize
    requires { (at < far) × (k < 256) }
    ensures put { Put out.old at (operand_at k) result out.new }
    ensures upper_bound { result ≤ at + 40 }
{
    let a = text::put_after(out, at, b"operand ", k + 1);
    text::put_text(out, a, b" is ")
}

// The ranks of operands at their parameters, with a blank between two.
// Stays: a loop like that of `put_params`. One function over a closure would say `Put` and a room of each call, and each closure its own: more than the loop.
fn put_numbers(out: &mut [u8], at: usize, ps: &[u8], xs: &[u8]) -> usize
    requires { (at + length ps.now * 30 ≤ far) × Shaped ps.now × (length xs.now ≡ length ps.now) }
    ensures put { Put out.old at (apart (ascii " ") (map decimal (ranks_of (map operand ps.now) (map operand xs.now)))) result out.new }
    ensures upper_bound { result ≤ at + length ps.now * 30 }
{
    let mut a = at;
    for (i, p) in ps.iter().enumerate() {
        let b = put_gap(out, a, i, b" ");
        let rank = weigh::cost(xs[i], *p);
        a = text::put_number(out, b, wide(rank));
    }
    a
}

// The word for so many ranks.
#[tactic(auto, unfolding(crate::specs::Phrase::ranks_word, text::specs::Text::ascii))]
fn put_word(out: &mut [u8], at: usize, k: usize) -> usize
    requires { at < far }
    ensures put { Put out.old at (ranks_word k) result out.new }
    ensures upper_bound { result ≤ at + 8 }
{
    match k {
        0 => at,
        1 => text::put_text(out, at, b", rank "),
        _ => text::put_text(out, at, b", ranks "),
    }
}

// The ranks of operands at their parameters, with the word for them.
pub fn put_ranks(out: &mut [u8], at: usize, ps: &[u8], xs: &[u8]) -> usize
    requires { (at + length ps.now * 30 + 8 < far) × Shaped ps.now × (length xs.now ≡ length ps.now) }
    ensures put { Put out.old at (ranks_text (ranks_of (map operand ps.now) (map operand xs.now))) result out.new }
    ensures upper_bound { result ≤ at + length ps.now * 30 + 8 }
{
    let a = put_word(out, at, ps.len());
    put_numbers(out, a, ps, xs)
}
