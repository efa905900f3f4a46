// A ruled call in a table: the numbers of operands, the judgment of a row, and the result entered.
#![tactic(auto)]

ghost use Rattle.std.specs.Prelude.{◌≡◌, true, not, map, ◌+◌, ◌-◌, ◌/◌, ◌%◌, ◌<◌, ◌≤◌, T};
ghost use Rattle.held.specs.Held.{number_of, mark_of};
ghost use Rattle.conv.specs.Types.{abstract_ty, formed, is_runtime};
ghost use Rattle.conv.specs.Rank.{both};
ghost use Rattle.overload.specs.Marks.{any_running, running_abstract};
ghost use Rattle.overload.specs.Rows.{row_at};
ghost use Rattle.overload.specs.inner.Code.{operand, code_of, judge_kept, out_of};
ghost use Rattle.table.specs.Table.{Sound};
ghost use Rattle.table.specs.Denote.{type_at};
ghost use Rattle.table.specs.Placing.{Gave, entering};
ghost use Rattle.table.specs.declared.Entry.{Entry};
ghost use Rattle.ruled.specs.Call.{operand_ty, judged_outcome};
ghost use Rattle.ruled.specs.inner.Result.{ResultDone, PlainDone};

use conv::{PLAINS, SCALARS};
use overload::Out;
use table::{Answer, Entered, Entry, Lacks, Place, Reason, TypeNo};

// The number of a reference, and of any other type that is neither scalar nor vector nor matrix.
// Stays: a number and no enum, since `overload::resolve` searches its rows by it, and `code_of` of overload/specs/inner/Code.antt gives each type's.
pub const REFERENCE: u8 = 98;

pub const OTHER: u8 = 91;

// The operand's number of the type at t.
pub fn code_at(words: &[u32], n: usize, t: usize) -> u8
    requires { Sound words.now n × (t < n) }
    ensures { result ≡ code_of (type_at words.now t) }
{
    if t < table::SCALARS {
        return t as u8;
    }
    let e = table::entry_at(words, t);
    if e.kind == table::KIND_VEC {
        return (7 * (e.p - 1) + e.elem) as u8;
    }
    if e.kind == table::KIND_MAT {
        return (7 * (3 * e.p + e.q - 4) + e.elem) as u8;
    }
    if e.kind == table::KIND_REF {
        return REFERENCE;
    }
    OTHER
}

// Whether an operand is running and abstract at any depth.
pub fn clashes(words: &[u32], n: usize, v: u32) -> bool
    requires { Sound words.now n × (number_of v < n) }
    ensures { result ≡ both (mark_of v) (abstract_ty (operand_ty words.now v)) }
{
    if !held::running(v) {
        return false;
    }
    table::abstract_at(words, n, held::number(v).0)
}

// The entry of the vector of that number.
fn vec_entry(x: u8) -> Entry
    ensures { result ≡ record { kind = 7; p = x / 7 + 1; q = 0; elem = x % 7 } }
{
    Entry {
        kind: table::KIND_VEC,
        p: (x / SCALARS) as u32 + 1,
        q: 0,
        elem: (x % SCALARS) as u32,
    }
}

// The entry of the matrix of that number.
fn mat_entry(x: u8) -> Entry
    requires { 28 ≤ x }
    ensures { result ≡ record { kind = 8; p = (x / 7 - 4) / 3 + 2; q = (x / 7 - 4) % 3 + 2; elem = x % 7 } }
{
    let m = x / SCALARS - 4;
    Entry {
        kind: table::KIND_MAT,
        p: (m / 3) as u32 + 2,
        q: (m % 3) as u32 + 2,
        elem: (x % SCALARS) as u32,
    }
}

// The result type of frexp or of modf, by its kind, over the type of that number.
fn enter_result(words: &mut [u32], n: usize, kind: u32, x: u8) -> Result<Entered, Lacks>
    requires { Sound words.old n }
    ensures { ResultDone words.old n kind x result words.new }
{
    if x < SCALARS {
        return entering::enter(
            words,
            n,
            Entry {
                kind,
                p: 0,
                q: 0,
                elem: x as u32,
            },
        );
    }
    entering::enter_two(
        words,
        n,
        vec_entry(x),
        Entry {
            kind,
            p: 0,
            q: 0,
            elem: 0,
        },
    )
}

// The type of that number.
fn enter_plain(words: &mut [u32], n: usize, x: u8) -> Result<Entered, Lacks>
    requires { Sound words.old n }
    ensures { PlainDone words.old n x result words.new }
{
    if x < SCALARS {
        return Ok(Entered {
            ty: TypeNo(x as usize),
            used: n,
        });
    }
    if x < PLAINS {
        return entering::enter(words, n, vec_entry(x));
    }
    entering::enter(words, n, mat_entry(x))
}

// The type of a result, entered where it is absent.
fn enter_out(words: &mut [u32], n: usize, place: Place, out: Out) -> Answer
    requires { Sound words.old n × (formed (out_of out) ≡ true) × T (not (is_runtime (out_of out))) }
    ensures { Gave (entering place.0 words.old n (out_of out)) result words.new }
{
    match out {
        Out::Plain(x) => entering::answer_of(place, n, enter_plain(words, n, x)),
        Out::Frexp(x) => entering::answer_of(
            place,
            n,
            enter_result(words, n, table::KIND_FREXP, x),
        ),
        Out::Modf(x) => entering::answer_of(place, n, enter_result(words, n, table::KIND_MODF, x)),
    }
}

// The answer of a row at operands by their numbers, of which one is running or none: refusal 8 or 9, or the result's number.
pub fn judge_codes(
    words: &mut [u32],
    n: usize,
    place: Place,
    row: usize,
    running: bool,
    codes: &[u8],
) -> Answer
    requires { Sound words.old n }
    ensures { Gave (judged_outcome place.0 words.old n (judge_kept running (row_at row) (map operand codes.now))) result words.new }
{
    match overload::resolve(row, running, codes) {
        Some(out) => enter_out(words, n, place, out),
        None => table::refused(Reason::NoOverload, place, n),
    }
}
