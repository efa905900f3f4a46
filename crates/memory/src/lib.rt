// Calls on memory: those on atomics, workgroupUniformLoad and arrayLength. Their overloads are described, one for each pointer type that the rule takes: the pointer's entry is read, and
// nothing is searched.
#![tactic(auto)]

ghost use Rattle.std.specs.Prelude.{◌≡◌, cond, ◌∷◌, ◌<◌, length, Some, None};
ghost use Rattle.conv.specs.Types.{holds_atomic};
ghost use Rattle.conv.specs.Types.Ty.{scalar, exchange};
ghost use Rattle.conv.specs.Rank.{converts};
ghost use Rattle.held.specs.Held.{number_of};
ghost use Rattle.overload.specs.Overload.{fits};
ghost use Rattle.overload.specs.Rows.{values, takes_atomic, atomic_in, judge_atomic, judge_load, judge_length};
ghost use Rattle.table.specs.Table.{Sound};
ghost use Rattle.table.specs.Denote.{type_at};
ghost use Rattle.table.specs.Placing.{Gave};
ghost use Rattle.ruled.specs.Call.{operand_ty, operand_tys, judged_outcome, silent_outcome};
ghost use Rattle.memory.specs.inner.Component.{Below, atomic_component};

use conv::SCALARS;
use table::{
    ACCESS_READ, ACCESS_READ_WRITE, Answer, Entry, KIND_ATOMIC, KIND_EXCHANGE, KIND_PTR,
    KIND_RUNTIME, Place, Reason, SPACE_STORAGE, SPACE_WORKGROUP, TypeNo,
};

// The component of the atomic to which the type at t points, where calls on atomics take such a pointer.
pub fn pointed(words: &[u32], n: usize, t: usize) -> Option<u8>
    requires { Sound words.now n × (t < n) }
    ensures { result ≡ cond (takes_atomic (type_at words.now t)) (Some (atomic_in (type_at words.now t))) None }
{
    let e = table::entry_at(words, t);
    if e.kind != KIND_PTR {
        return None;
    }
    let f = table::entry_at(words, cast::word(e.elem));
    let shared = (e.p == SPACE_STORAGE) | (e.p == SPACE_WORKGROUP);
    if shared & (e.q == ACCESS_READ_WRITE) & (f.kind == KIND_ATOMIC) {
        return Some(f.elem as u8);
    }
    None
}

// Whether an operand converts to the scalar s.
pub fn value_fits(words: &[u32], n: usize, v: u32, s: u8) -> bool
    requires { Sound words.now n × (number_of v < n) × (s < 7) }
    ensures { result ≡ converts (operand_ty words.now v) (scalar s) }
{
    let x = ruled::code_at(words, n, held::number(v).0);
    if SCALARS <= x {
        return false;
    }
    conv::rank(x, s).is_some()
}

// Whether all operands do.
fn values_fit(words: &[u32], n: usize, rest: &[u32], s: u8) -> bool
    requires { Sound words.now n × Below n rest.now × (s < 7) }
    ensures { result ≡ fits (values (length rest.now) s) (operand_tys words.now rest.now) }
{
    for v in rest {
        if !value_fits(words, n, *v, s) {
            return false;
        }
    }
    true
}

// The component of the atomic that a call takes: `a` is its first operand, a pointer to it, and all others convert to the component.
fn component(words: &[u32], n: usize, a: u32, rest: &[u32]) -> Option<u8>
    requires { Sound words.now n × (number_of a < n) × Below n rest.now }
    ensures { result ≡ atomic_component (operand_ty words.now a) (operand_tys words.now rest.now) }
{
    let s = pointed(words, n, held::number(a).0)?;
    if values_fit(words, n, rest, s) {
        return Some(s);
    }
    None
}

// A call on an atomic that gives its component, which stands in every table.
pub fn on_atomic(words: &[u32], n: usize, place: Place, a: u32, rest: &[u32]) -> Answer
    requires { Sound words.now n × (number_of a < n) × Below n rest.now }
    ensures { Gave (judged_outcome place.0 words.now n (judge_atomic (length rest.now) scalar (operand_ty words.now a ∷ operand_tys words.now rest.now))) result words.now }
{
    match component(words, n, a, rest) {
        Some(s) => table::accepted(TypeNo(s as usize), n),
        None => table::refused(Reason::NoOverload, place, n),
    }
}

// One that gives no value.
pub fn storing(words: &[u32], n: usize, place: Place, a: u32, rest: &[u32]) -> Answer
    requires { Sound words.now n × (number_of a < n) × Below n rest.now }
    ensures { Gave (silent_outcome place.0 words.now n (judge_atomic (length rest.now) scalar (operand_ty words.now a ∷ operand_tys words.now rest.now))) result words.now }
{
    match component(words, n, a, rest) {
        Some(_) => table::no_value(n),
        None => table::refused(Reason::NoOverload, place, n),
    }
}

// One that gives the result of a compare, which is entered where it is absent.
pub fn comparing(words: &mut [u32], n: usize, place: Place, a: u32, rest: &[u32]) -> Answer
    requires { Sound words.old n × (number_of a < n) × Below n rest.now }
    ensures { Gave (judged_outcome place.0 words.old n (judge_atomic (length rest.now) exchange (operand_ty words.old a ∷ operand_tys words.old rest.now))) result words.new }
{
    let Some(s) = component(words, n, a, rest) else {
        return table::refused(Reason::NoOverload, place, n);
    };
    let e = Entry {
        kind: KIND_EXCHANGE,
        p: 0,
        q: 0,
        elem: s as u32,
    };
    let r = entering::enter(words, n, e);
    entering::answer_of(place, n, r)
}

// Whether an atomic stands in the type at t, at any depth.
fn holds_atomic(words: &[u32], n: usize, t: usize) -> bool
    requires { Sound words.now n × (t < n) }
    ensures { result ≡ holds_atomic (type_at words.now t) }
{
    let mut at = t;
    while table::SCALARS <= at {
        let e = table::entry_at(words, at);
        if e.kind == KIND_ATOMIC {
            return true;
        }
        at = cast::word(e.elem);
    }
    false
}

// workgroupUniformLoad of the type at t: the component of an atomic, else what it points to; both stand in the table.
fn load_at(words: &[u32], n: usize, place: Place, t: usize) -> Answer
    requires { Sound words.now n × (t < n) }
    ensures { Gave (judged_outcome place.0 words.now n (judge_load (type_at words.now t))) result words.now }
{
    let e = table::entry_at(words, t);
    if (e.kind != KIND_PTR) | (e.p != SPACE_WORKGROUP) | (e.q != ACCESS_READ_WRITE) {
        return table::refused(Reason::NoOverload, place, n);
    }
    let element = cast::word(e.elem);
    let f = table::entry_at(words, element);
    if f.kind == KIND_ATOMIC {
        return table::accepted(TypeNo(cast::word(f.elem)), n);
    }
    if f.kind == KIND_RUNTIME {
        return table::refused(Reason::NoOverload, place, n);
    }
    if holds_atomic(words, n, element) {
        return table::refused(Reason::NoOverload, place, n);
    }
    table::accepted(TypeNo(element), n)
}

// The same of an operand.
pub fn uniform_load(words: &[u32], n: usize, place: Place, a: u32) -> Answer
    requires { Sound words.now n × (number_of a < n) }
    ensures { Gave (judged_outcome place.0 words.now n (judge_load (operand_ty words.now a))) result words.now }
{
    load_at(words, n, place, held::number(a).0)
}

// arrayLength of the type at t: u32, of a pointer in space storage that may be read, to an array without count.
fn length_at(words: &[u32], n: usize, place: Place, t: usize) -> Answer
    requires { Sound words.now n × (t < n) }
    ensures { Gave (judged_outcome place.0 words.now n (judge_length (type_at words.now t))) result words.now }
{
    let e = table::entry_at(words, t);
    if e.kind != KIND_PTR {
        return table::refused(Reason::NoOverload, place, n);
    }
    let f = table::entry_at(words, cast::word(e.elem));
    let read = (e.q == ACCESS_READ) | (e.q == ACCESS_READ_WRITE);
    if (e.p == SPACE_STORAGE) & read & (f.kind == KIND_RUNTIME) {
        return table::accepted(TypeNo(table::U32), n);
    }
    table::refused(Reason::NoOverload, place, n)
}

// The same of an operand.
pub fn array_length(words: &[u32], n: usize, place: Place, a: u32) -> Answer
    requires { Sound words.now n × (number_of a < n) }
    ensures { Gave (judged_outcome place.0 words.now n (judge_length (operand_ty words.now a))) result words.now }
{
    length_at(words, n, place, held::number(a).0)
}
