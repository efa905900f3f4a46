// Overload resolution: the preferred overload of a row at operands, found without a search through the overloads.
// An operand is a number: 7 times its shape plus its component. Shapes: scalar 0, vec2 to vec4 1 to 3, mat2x2 to mat4x4 4 to 12, any other type from 13 on.
// Each operand gives the set of T at which it fits, a bit for each scalar; the first of their common T, in the order of preference, is the answer's. Where an operand is known only
// when running, it is the first concrete one.
#![tactic(auto)]

pub mod tables;

ghost use Rattle.std.specs.Prelude.{◌≡◌, ℕ, ◌+◌, ◌*◌, ◌/◌, ◌%◌, ◌<◌, false, not, T, map, length, ◌==◌, MatchOption, unwrap_or, ⊤};
ghost use Rattle.conv.specs.Rank.{pick, both, none, form_of, found};
ghost use Rattle.overload.specs.Overload.{Resolved, listed, or};
ghost use Rattle.overload.specs.Rows.{of_family, pattern_ty, wrapped, row_at, operand_count};
ghost use Rattle.overload.specs.Marks.{passing};
ghost use Rattle.overload.specs.inner.Code.{shape_of_no, operand, size_of_no, mem_size, asked_of, family_of, digit_of, size_at, has, first_with, preference, reaches, allows, slot_t, slot_i, fits_at, first_x, last_x, kept, judge_kept, left_t, out_of, judged_of};

use cast::wide;
use conv::{PLAINS, SCALARS};
use tables::{Family, Row, Size};

// The digits of a family: the count of its parameters, its first parameter, its result, its wrapping, by which operands its size is found.
// Stays: digits of constant rows, each read in one place, which says what it means: the wrapping in `out_of`, the operands of the size in `size_at`.
const COUNT: usize = 0;

const PARAM: usize = 1;

const RESULT: usize = 9;

const WRAP: usize = 11;

const PIVOT: usize = 12;
// The component of a pattern that stands for the second choice, and that for T, which is the last.
// Stays: a component is a digit of constant rows and the place of a line of `tables::reached`; an enum would be made of the digit and turned back into it at each operand.
const OF_I: u8 = 7;

const OF_T: u8 = 9;
// How many shapes there are.
const SHAPES: u8 = 13;
// The set of all scalars.
const ALL: u64 = 0x7f;
// The set of those that are not abstract.
const CONCRETE: u64 = 0x6d;

// By shape: its form. An octal digit each, from the right.
const FORMS: u64 = 0o2222222221110;

// By scalar: the set of T to which it converts. Two hexadecimal digits each.
const REACHED: u64 = 0x40_20_08_04_70_7e_01;

// The scalars in the order of preference. An octal digit each, from the right.
const PREFERENCE: u64 = 0o6524310;

// The type of a result: that of an operand's number, or the result type of frexp or of modf over it.
#[derive(Clone, Copy)]
pub enum Out {
    Plain(u8),
    Frexp(u8),
    Modf(u8),
}

// The sets of T and of the second choice at which operands fit.
#[derive(Clone, Copy)]
struct Choices {
    t: u64,
    i: u64,
}

// The shape of an operand: a seventh of its number, by a product and a shift.
fn shape_of(x: u8) -> u8
    ensures { result ≡ x / 7 }
{
    ((x as u64) * 9363 / 65536) as u8
}

// The shape of an operand, that of a scalar where there is none.
fn shape_or_scalar(x: Option<u8>) -> u8
    ensures { result ≡ unwrap_or x 0 / 7 }
{
    shape_of(x.unwrap_or(0))
}

// The form of a shape: 0 scalar, 1 vector, 2 matrix.
// Stays: the forms of two shapes together are the place of a digit in a row's line, so a form is a number from the start.
fn form_of(shape: u8) -> u8
    requires { shape < 13 }
    ensures { (result ≡ form_of (shape_of_no shape)) × (result < 3) }
{
    ((FORMS >> (3 * shape)) % 8) as u8
}

// The size of a family at the shapes of its first and last operands, by which operands it is found; k is the number of its list of sizes.
#[tactic(auto, unfolding(crate::specs::inner::Code::size_at))]
fn size_at(pivot: u8, k: u8, a: u8, b: u8) -> u8
    requires { (a < 13) × (b < 13) × (k < 16) }
    ensures { (result ≡ size_at pivot k a b) × (result < 41) }
{
    match pivot {
        0 => a,
        1 => b,
        2 => 3 * a + (b + 2) / 3,
        _ => k,
    }
}

// The number that joins are made at: bool of the operand's width where the operand is plain, else bool itself.
fn base_of(x: u8) -> u8
    ensures { (result < 22) × (result / 7 * 7 ≡ result) }
{
    if x < PLAINS {
        return x / SCALARS * SCALARS;
    }
    0
}

// The component of an operand of the shape that a form asks at a size, and of one of another shape none.
fn component(form: u8, z: Size, x: u8) -> Option<u8>
    requires { (form < 7) × (asked_of form z.no < 13) }
    ensures { result ≡ found (pick (x / 7 == asked_of form z.no) (x % 7) none) }
{
    let s = std::num::wrapping_sub_u8(x, z.start(form));
    if SCALARS <= s {
        return None;
    }
    Some(s)
}

// The join of two scalars, by the common type at the width of the operand x.
fn common(x: u8, j: u8, s: u8) -> Option<u8>
    requires { (j < 7) × (s < 7) }
    ensures { MatchOption result ((t : ℕ) → t < 7 → both (reaches j t) (reaches s t) ≡ false) (λ r. (r < 7) × ((t : ℕ) → t < 7 → reaches r t ≡ both (reaches j t) (reaches s t))) }
{
    let base = base_of(x);
    let r = conv::convert_ty(base + j, base + s)?;
    Some(r - base)
}

// What is joined so far, or nothing yet, with the scalar s of the operand x at T. Equal scalars need no table.
fn join(x: u8, joined: Option<u8>, s: u8) -> Option<u8>
    requires { (MatchOption joined ⊤ (λ j. j < 7)) × (s < 7) }
    ensures { MatchOption result ((t : ℕ) → t < 7 → both (allows joined t) (reaches s t) ≡ false) (λ r. (r < 7) × ((t : ℕ) → t < 7 → reaches r t ≡ both (allows joined t) (reaches s t))) }
{
    match joined {
        Some(j) => {
            if j == s {
                return joined;
            }
            common(x, j, s)
        }
        None => Some(s),
    }
}

// The set of T to which a scalar converts.
fn reached_from(s: u8) -> u64
    requires { s < 7 }
    ensures { (t : ℕ) → t < 7 → has result t ≡ reaches s t }
{
    (REACHED >> (8 * s)) % 256
}

// The set of the second choice at which the scalar s fits a component.
fn second_slot(of: u8, s: u8) -> u64
    requires { s < 7 }
    ensures { (i : ℕ) → i < 7 → has result i ≡ slot_i of s i }
{
    if of != OF_I {
        return ALL;
    }
    reached_from(s)
}

// The set of T to which what is joined converts.
fn allowed(joined: Option<u8>) -> u64
    requires { MatchOption joined ⊤ (λ j. j < 7) }
    ensures { (t : ℕ) → t < 7 → has result t ≡ allows joined t }
{
    match joined {
        Some(j) => reached_from(j),
        None => ALL,
    }
}

// The sets at which all operands fit a family at a size; none where one has another shape, or where two have no common type at T.
fn fit(f: Family, z: Size, xs: &[u8]) -> Option<Choices>
    requires { T (mem_size (size_of_no z.no) (family_of f.no).sizes) × (length xs.now ≡ length (family_of f.no).params) }
    ensures { MatchOption result ((t i : ℕ) → t < 7 → i < 7 → fits_at (family_of f.no) z.no t i xs.now ≡ false) (λ s. (t i : ℕ) → t < 7 → i < 7 → fits_at (family_of f.no) z.no t i xs.now ≡ both (has s.t t) (has s.i i)) }
{
    let mut joined = None;
    let mut m = ALL;
    let mut v = ALL;
    for (k, x) in xs.iter().enumerate() {
        let s = component(f.digit(2 * k + PARAM), z, *x)?;
        let of = f.digit(2 * k + PARAM + 1);
        if OF_T <= of {
            joined = Some(join(*x, joined, s)?);
        } else {
            m = m & tables::reached(of, s);
            v = v & second_slot(of, s);
        }
    }
    Some(Choices {
        t: m & allowed(joined),
        i: v,
    })
}

// What is left of a set of T: the concrete ones where an operand is running.
fn left_of(running: bool, set: u64) -> u64
    requires { set < 128 }
    ensures { (result < 128) × ((t : ℕ) → t < 7 → has result t ≡ both (has set t) (left_t running t)) }
{
    if running {
        return set & CONCRETE;
    }
    set
}

// The first scalar of a set, in the order of preference.
fn first_of(w: u64) -> Option<u8>
    requires { w < 128 }
    ensures { result ≡ found (first_with preference (has w)) }
{
    if w == 0 {
        return None;
    }
    Some(((PREFERENCE >> (3 * w.trailing_zeros())) % 8) as u8)
}

// The number of a family's result at a size, a T and an I.
fn result_of(f: Family, z: Size, t: u8, i: u8) -> u8
    requires { T (mem_size (size_of_no z.no) (family_of f.no).sizes) × (t < 7) × (i < 7) }
    ensures { operand result ≡ pattern_ty (size_of_no z.no) t i (family_of f.no).result }
{
    let start = z.start(f.digit(RESULT));
    let of = f.digit(RESULT + 1);
    if of == OF_T {
        return start + t;
    }
    start + of
}

// The result type of a family at a size, a T and an I.
fn out_of(f: Family, z: Size, t: u8, i: u8) -> Out
    requires { T (mem_size (size_of_no z.no) (family_of f.no).sizes) × (t < 7) × (i < 7) }
    ensures { out_of result ≡ wrapped (family_of f.no).wrap (pattern_ty (size_of_no z.no) t i (family_of f.no).result) }
{
    let x = result_of(f, z, t, i);
    match f.digit(WRAP) {
        0 => Out::Plain(x),
        1 => Out::Frexp(x),
        _ => Out::Modf(x),
    }
}

// One family at operands, whose first and last have the shapes a and b, and of which one is running or none: the preferred overload's result, where one fits.
fn try_family(f: Family, running: bool, a: u8, b: u8, xs: &[u8]) -> Option<Out>
    requires { (a < 13) × (b < 13) × (a ≡ first_x xs.now / 7) × (b ≡ last_x xs.now / 7) }
    ensures { Resolved (passing (kept running) (listed (of_family (family_of f.no)))) (map operand xs.now) (judged_of result) }
{
    if wide::<usize>(f.digit(COUNT)) != xs.len() {
        return None;
    }
    let k = f.sizes();
    let n = size_at(f.digit(PIVOT), k, a, b);
    if (tables::sizes_line(k) >> n) % 2 != 1 {
        return None;
    }
    let z = Size::at(n);
    let sets = fit(f, z, xs)?;
    let left = left_of(running, tables::set_line(f.set()));
    let t = first_of(left & sets.t)?;
    let i = first_of(tables::set_line(f.second()) & sets.i)?;
    Some(out_of(f, z, t, i))
}

// How many operands the overloads of a row take.
pub fn operand_count(row: usize) -> usize
    ensures { result ≡ operand_count (row_at row) }
{
    Row::at(row).operand_count()
}

// The judgment of a row at operands, of which one is running or none: what the first of its families that fits gives; nothing where no overload fits.
pub fn resolve(row: usize, running: bool, xs: &[u8]) -> Option<Out>
    ensures { judged_of result ≡ judge_kept running (row_at row) (map operand xs.now) }
{
    let a = shape_or_scalar(xs.first().copied());
    let b = shape_or_scalar(xs.last().copied());
    if SHAPES <= a || SHAPES <= b {
        return None;
    }
    let r = Row::at(row);
    let k = r.place(3 * form_of(a) + form_of(b))?;
    for j in k..r.stop().max(k + 1) {
        if let Some(out) = try_family(Family::at(r.start() + j), running, a, b, xs) {
            return Some(out);
        }
    }
    None
}
