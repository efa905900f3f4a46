// The result types of operators, as wgsl-types' `ops_ty.rs` has them, by the standard.
#![tactic(auto)]

ghost use Rattle.std.specs.Prelude.{◌≡◌, ◌<◌};
ghost use Rattle.table.specs.Table.{Sound};
ghost use Rattle.table.specs.Denote.{type_at};
ghost use Rattle.table.specs.Placing.{Gave, GaveMarked};
ghost use Rattle.held.specs.Held.{number_of, mark_of};
ghost use Rattle.ruled.specs.Call.{operand_ty, judged_outcome};
ghost use Rattle.ops_ty.specs.inner.Turn.{Turns, judge_from, offered};
ghost use Rattle.ops_ty.specs.Ops.{binary_row, unary_outcome, binary_outcome, type_unary_op, type_binary_op, unary_runs, binary_runs};

use ruled::REFERENCE;
use table::{Answer, Entry, Place, Reason, Typed};

// Unary operators: `!` `-` `~` are rows 0 to 2 of the overloads, then `&` and `*`.
// Stays: a host gives the number in C (`swartabelk_unary`) and a sheet in a byte, any number there is, and `unary_ruling` of specs/Ops.antt reads it as it is.
const UNARY_OPS: usize = 5;

const ADDRESS_OF: usize = 3;

const INDIRECTION: usize = 4;

// The row of each binary operator: `||` `&&` `+` `-` `*` `/` `%` `==` `!=` `<` `<=` `>` `>=` `|` `&` `^` `<<` `>>`.
const BINARY_ROW: [u8; 18] = [3, 3, 4, 4, 5, 6, 6, 7, 7, 8, 8, 8, 8, 9, 9, 10, 11, 11];

// The row of a binary operator.
pub fn row_byte(op: usize) -> u8
    requires { op < 18 }
    ensures { result ≡ (binary_row op).number }
{
    BINARY_ROW[op]
}

// `op_ref` and `op_deref`: from a type of the one kind that of the other. No reference in space handle has a pointer; no pointer is in that space.
fn type_turned(words: &mut [u32], n: usize, place: Place, a: usize, from: u32, to: u32) -> Answer
    requires { Sound words.old n × (a < n) × Turns from to }
    ensures { Gave (judged_outcome place.0 words.old n (judge_from from (type_at words.old a))) result words.new }
{
    let e = table::entry_at(words, a);
    if e.kind != from {
        return table::refused(Reason::NoOverload, place, n);
    }
    if e.p == table::SPACE_HANDLE {
        return table::refused(Reason::NoOverload, place, n);
    }
    let r = entering::enter(words, n, Entry { kind: to, ..e });
    entering::answer_of(place, n, r)
}

// Whether an operand is a reference that the unary operator may not be offered.
fn is_offered(op: usize, x: u8) -> bool
    ensures { result ≡ offered op x }
{
    (op != ADDRESS_OF) & (x == REFERENCE)
}

// A unary operator on a loaded operand, at a place.
pub fn unary_at(words: &mut [u32], n: usize, place: Place, op: usize, a: u32) -> Answer
    requires { Sound words.old n × (number_of a < n) }
    ensures { Gave (unary_outcome place.0 words.old n op (operand_ty words.old a) (mark_of a)) result words.new }
{
    if UNARY_OPS <= op {
        return table::refused(Reason::Unknown, place, n);
    }
    let t = held::number(a).0;
    let x = ruled::code_at(words, n, t);
    if is_offered(op, x) {
        return table::refused(Reason::Reference, place, n);
    }
    if ruled::clashes(words, n, a) {
        return table::refused(Reason::RunningAbstract, place, n);
    }
    if op == ADDRESS_OF {
        return type_turned(words, n, place, t, table::KIND_REF, table::KIND_PTR);
    }
    if op == INDIRECTION {
        return type_turned(words, n, place, t, table::KIND_PTR, table::KIND_REF);
    }
    ruled::judge_codes(words, n, place, op, held::running(a), &[x])
}

// A binary operator on loaded operands, at a place.
pub fn binary_at(words: &mut [u32], n: usize, place: Place, op: usize, a: u32, b: u32) -> Answer
    requires { Sound words.old n × (number_of a < n) × (number_of b < n) }
    ensures { Gave (binary_outcome place.0 words.old n op (operand_ty words.old a) (operand_ty words.old b) (mark_of a) (mark_of b)) result words.new }
{
    let Some(row) = BINARY_ROW.get(op) else {
        return table::refused(Reason::Unknown, place, n);
    };
    let x = ruled::code_at(words, n, held::number(a).0);
    if x == REFERENCE {
        return table::refused(Reason::Reference, place, n);
    }
    let y = ruled::code_at(words, n, held::number(b).0);
    if y == REFERENCE {
        return table::refused(Reason::Reference, place, n);
    }
    if ruled::clashes(words, n, a) | ruled::clashes(words, n, b) {
        return table::refused(Reason::RunningAbstract, place, n);
    }
    let running = held::running(a) | held::running(b);
    ruled::judge_codes(words, n, place, *row as usize, running, &[x, y])
}

// The answer of a unary operator on an operand that is any number.
fn answer_unary(words: &mut [u32], n: usize, op: usize, a: u32) -> Answer
    ensures { Gave (type_unary_op words.old n op a) result words.new }
{
    if !table::sound(words, n) {
        return table::refused(Reason::Unsound, Place(0), n);
    }
    if n <= held::number(a).0 {
        return table::refused(Reason::NoSuchType, Place(0), n);
    }
    unary_at(words, n, Place(0), op, a)
}

// The answer of a binary operator on operands that are any numbers.
fn answer_binary(words: &mut [u32], n: usize, op: usize, a: u32, b: u32) -> Answer
    ensures { Gave (type_binary_op words.old n op a b) result words.new }
{
    if !table::sound(words, n) {
        return table::refused(Reason::Unsound, Place(0), n);
    }
    if n <= held::number(a).0 {
        return table::refused(Reason::NoSuchType, Place(0), n);
    }
    if n <= held::number(b).0 {
        return table::refused(Reason::NoSuchType, Place(0), n);
    }
    binary_at(words, n, Place(0), op, a, b)
}

// For a host: the type of a unary operator on the operand a, a type's number with its mark.
pub fn type_unary_op(words: &mut [u32], n: usize, op: usize, a: u32) -> Typed
    ensures { GaveMarked (type_unary_op words.old n op a) (unary_runs a) result words.new }
{
    let r = answer_unary(words, n, op, a);
    table::marked(r, held::running(a))
}

// For a host: the type of a binary operator on the operands a and b.
pub fn type_binary_op(words: &mut [u32], n: usize, op: usize, a: u32, b: u32) -> Typed
    ensures { GaveMarked (type_binary_op words.old n op a b) (binary_runs a b) result words.new }
{
    let r = answer_binary(words, n, op, a, b);
    table::marked(r, held::running(a) | held::running(b))
}
