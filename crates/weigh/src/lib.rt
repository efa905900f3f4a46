// An overload at operands: by which rank each converts, which is the first that does not, and which of two overloads is preferred. Parameters and operands are operands' numbers.
#![tactic(auto)]

ghost use Rattle.std.specs.Prelude.{◌≡◌, map, ◌<◌, length};
ghost use Rattle.conv.specs.Types.{abstract_ty};
ghost use Rattle.conv.specs.Rank.{both, conversion_rank, found};
ghost use Rattle.overload.specs.Overload.{no_more, less};
ghost use Rattle.overload.specs.inner.Code.{operand};
ghost use Rattle.weigh.specs.Weigh.{first_by, first_miss, place_in, Shaped};

use conv::{ABSTRACT_FLOAT, ABSTRACT_INT, SCALARS};

// The rank of the conversion of an operand to a parameter.
pub fn rank(x: u8, p: u8) -> Option<u8>
    requires { p < 91 }
    ensures { result ≡ found (conversion_rank (operand x) (operand p)) }
{
    if x / SCALARS != p / SCALARS {
        return None;
    }
    conv::rank(x % SCALARS, p % SCALARS)
}

// What an operand costs at a parameter: the rank, and where it does not convert more than any rank.
// Stays: a number, since `no_more` and `less` compare numbers, and an Option has None before Some.
pub fn cost(x: u8, p: u8) -> u8
    requires { p < 91 }
    ensures { result ≡ conversion_rank (operand x) (operand p) }
{
    rank(x, p).unwrap_or(u8::MAX)
}

// The place of the first operand that does not convert to its parameter.
pub fn first_miss(ps: &[u8], xs: &[u8]) -> Option<usize>
    requires { Shaped ps.now × (length xs.now ≡ length ps.now) }
    ensures { result ≡ place_in (length xs.now) (first_miss (map operand ps.now) (map operand xs.now)) }
{
    for (i, p) in ps.iter().enumerate() {
        if rank(xs[i], *p).is_none() {
            return Some(i);
        }
    }
    None
}

// The place of the first parameter that is abstract.
pub fn first_abstract(ps: &[u8]) -> Option<usize>
    requires { Shaped ps.now }
    ensures { result ≡ place_in (length ps.now) (first_by abstract_ty (map operand ps.now)) }
{
    for (i, p) in ps.iter().enumerate() {
        let s = *p % SCALARS;
        if (s == ABSTRACT_INT) | (s == ABSTRACT_FLOAT) {
            return Some(i);
        }
    }
    None
}

// Whether no operand costs more under the parameters ps than under qs, and some operand less.
pub fn beats(xs: &[u8], ps: &[u8], qs: &[u8]) -> bool
    requires { Shaped ps.now × Shaped qs.now × (length ps.now ≡ length xs.now) × (length qs.now ≡ length xs.now) }
    ensures { result ≡ both (no_more (map operand xs.now) (map operand ps.now) (map operand qs.now)) (less (map operand xs.now) (map operand ps.now) (map operand qs.now)) }
{
    let mut cheaper = false;
    for (i, x) in xs.iter().enumerate() {
        let a = cost(*x, ps[i]);
        let b = cost(*x, qs[i]);
        if b < a {
            return false;
        }
        cheaper = cheaper | (a < b);
    }
    cheaper
}
