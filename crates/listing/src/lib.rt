// The overloads of a row, one by one, each by its place in the row's list: families in the row's order, in each of them T by its number, then the size, then the second choice.
// A place is taken apart by division: no list is made and none is searched.
#![tactic(auto)]

ghost use Rattle.std.specs.Prelude.{◌≡◌, ◌<◌, length, get_or};
ghost use Rattle.overload.specs.Rows.{row_at, overloads_of, component_at};
ghost use Rattle.overload.specs.inner.Code.{family_of, component_of_no, set_of, sizes_of};
ghost use Rattle.listing.specs.Listing.{Params};
ghost use Rattle.listing.specs.inner.Places.{count_of, t_at, n_at, i_at, size_in, code_of_param, codes_at, Asked, SetLine, SizesLine};

use cast::wide;
use conv::{ABSTRACT_FLOAT, ABSTRACT_INT, I32};
use overload::tables::{Family, Row, Size, line};

// By row, as specs/Rows.antt of `overload` numbers them: how many overloads it has.
const COUNTS: [u8; 54] = [
    4, 20, 12, 1, 87, 249, 60, 28, 24, 16, 12, 12, 12, 12, 12, 21, 24, 24, 24, 8, 8, 8, 12, 12, 18,
    9, 9, 9, 9, 3, 9, 27, 4, 12, 12, 1, 1, 1, 1, 1, 1, 1, 1, 1, 1, 4, 49, 16, 1, 1, 1, 32, 16, 12,
];
// The components of a pattern: the second choice, what follows T, T.
const OF_I: u8 = 7;

const OF_EXP: u8 = 8;

const OF_T: u8 = 9;

// By set of scalars: how many it has, and each of them, by number. An octal digit each, from the right.
// Stays: `overload` has the same sets as bits in the order of preference, by which its engine goes. To pick one of those by its number would take a loop.
const SETS: [u64; 11] = [
    0o0_1, // 0 only bool
    0o65321_5, // 1 signed
    0o431_3, // 2 integer
    0o654321_6, // 3 numeric
    0o652_3, // 4 float
    0o6543210_7, // 5 bool ∷ numeric
    0o43_2, // 6 bits
    0o5_1, // 7 only f32
    0o3_1, // 8 only i32
    0o4_1, // 9 only u32
    0o6543_4, // 10 concrete
];

// The line of a set.
fn set_line(k: u8) -> u64
    ensures { SetLine k result }
{
    line(&SETS, k as usize, 0)
}

// By list of sizes: how many it has, the first, and how far it is to the next and to the third after it. Two hexadecimal digits each, from the right.
const SIZES: [u64; 10] = [
    0x00_00_00_01, // 0 scalars
    0x00_00_01_01, // 1 width 2
    0x00_00_02_01, // 2 width 3
    0x00_00_03_01, // 3 width 4
    0x03_01_01_03, // 4 vectors
    0x03_01_00_04, // 5 wides
    0x03_01_04_09, // 6 matrices
    0x01_03_04_09, // 7 matrices_by_rows
    0x0c_04_04_03, // 8 squares
    0x03_01_0e_1b, // 9 products
];

// The line of a list of sizes.
fn sizes_line(k: u8) -> u64
    ensures { SizesLine k result }
{
    line(&SIZES, k as usize, 0)
}

// The scalar at a place of a set, by the set's line.
fn scalar_in(k: u8, w: u64, i: u64) -> u8
    requires { SetLine k w × (i < length (set_of k)) × (i < 8) }
    ensures { (result ≡ get_or (set_of k) i 0) × (result < 8) }
{
    ((w >> (3 * (i + 1))) % 8) as u8
}

// The number of the size at a place of a list of sizes, by the list's line.
fn size_in(k: u8, w: u64, i: u64) -> u64
    requires { SizesLine k w × (i < length (sizes_of k)) × (i < 256) }
    ensures { result ≡ size_in (sizes_of k) i }
{
    (w >> 8) % 256 + (w >> 16) % 256 * (i % 3) + (w >> 24) % 256 * (i / 3)
}

// How many overloads a family has.
fn count_in(f: Family) -> u64
    ensures { result ≡ count_of (family_of f.no) }
{
    let sizes = sizes_line(f.sizes()) % 256;
    let set = set_line(f.set()) % 8;
    let second = set_line(f.second()) % 8;
    set * sizes * second
}

// The second choice of the overload at a place of a family.
fn second_of(f: Family, j: u64) -> u8
    requires { j < count_of (family_of f.no) }
    ensures { (result ≡ i_at (family_of f.no) j) × (result < 8) }
{
    let k = f.second();
    let line = set_line(k);
    scalar_in(k, line, j % (line % 8))
}

// The number of its size.
fn size_of(f: Family, j: u64) -> u8
    requires { j < count_of (family_of f.no) }
    ensures { (result ≡ n_at (family_of f.no) j) × (result < 41) }
{
    let turn = j / (set_line(f.second()) % 8);
    let k = f.sizes();
    let line = sizes_line(k);
    size_in(k, line, turn % (line % 256)) as u8
}

// Its T.
fn t_of(f: Family, j: u64) -> u8
    requires { j < count_of (family_of f.no) }
    ensures { (result ≡ t_at (family_of f.no) j) × (result < 8) }
{
    let turn = j / (set_line(f.second()) % 8);
    let sizes = sizes_line(f.sizes()) % 256;
    let k = f.set();
    scalar_in(k, set_line(k), turn / sizes)
}

// The scalar that a component is at a T and an I.
#[tactic(auto, unfolding(overload::specs::Rows::component_at, overload::specs::inner::Code::component_of_no))]
fn scalar_at(of: u8, t: u8, i: u8) -> u8
    requires { (of < 10) × (t < 8) × (i < 8) }
    ensures { (result ≡ component_at (component_of_no of) t i) × (result < 10) }
{
    match of {
        OF_T => t,
        OF_I => i,
        OF_EXP => match t {
            ABSTRACT_INT | ABSTRACT_FLOAT => ABSTRACT_INT,
            _ => I32,
        },
        _ => of,
    }
}

// The parameter k of a family at a size, a T and an I, as an operand's number.
fn param(f: Family, z: Size, t: u8, i: u8, k: usize) -> u8
    requires { Asked (family_of f.no) z.no k × (t < 8) × (i < 8) × (k < 4) }
    ensures { result ≡ code_of_param (family_of f.no) z.no t i k }
{
    let start = z.start(f.digit(2 * k + 1));
    start + scalar_at(f.digit(2 * k + 2), t, i)
}

// The parameters of the overload at a place of a family, as operands' numbers.
fn in_family(f: Family, j: u64) -> [u8; 4]
    requires { j < count_of (family_of f.no) }
    ensures { result ≡ codes_at (family_of f.no) j }
{
    let z = Size::at(size_of(f, j));
    let t = t_of(f, j);
    let i = second_of(f, j);
    let a = param(f, z, t, i, 0);
    let b = param(f, z, t, i, 1);
    let c = param(f, z, t, i, 2);
    let d = param(f, z, t, i, 3);
    [a, b, c, d]
}

// How many overloads a row has.
pub fn count(row: usize) -> usize
    ensures { (result ≡ length (overloads_of (row_at row))) × (result < 256) }
{
    wide(line(&COUNTS, row, 0))
}

// The parameters of the overload at place j of a row, as operands' numbers.
pub fn params(row: usize, j: usize) -> [u8; 4]
    requires { j < length (overloads_of (row_at row)) }
    ensures { Params row j result }
{
    let r = Row::at(row);
    let mut k = 0;
    let mut left = j as u64;
    // Stays: the place stands in one of the row's families, so the loop ends by its return; behind a `for` over them an answer would stand that is never given.
    loop {
        let f = Family::at(r.start() + k);
        let here = count_in(f);
        if left < here {
            return in_family(f, left);
        }
        left -= here;
        k += 1;
    }
}
