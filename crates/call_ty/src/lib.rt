// The result types of builtins, as wgsl-types' `call_ty.rs` has them, by the standard and by the crate's rules.
#![tactic(auto)]

ghost use Rattle.std.specs.Prelude.{◌≡◌, true, false, ◌≤◌, length, map};
ghost use Rattle.names.specs.inner.Table.{meant};
ghost use Rattle.table.specs.Table.{Sound};
ghost use Rattle.table.specs.Placing.{Gave, GaveMarked};
ghost use Rattle.answer.specs.Answer.{refuse, marked_by};
ghost use Rattle.held.specs.Held.{number_of};
ghost use Rattle.overload.specs.inner.Code.{code_of};
ghost use Rattle.overload.specs.Marks.{any_running, running_abstract};
ghost use Rattle.call_ty.specs.Calls.{template_right, operands_of, given_by, given_outcome, call_outcome, all_under, numbers, marks_of, types, type_builtin_fn, builtin_runs};
ghost use Rattle.call_ty.specs.inner.Codes.{by_meant, Under, Loaded, numeric_code};

use conv::{ABSTRACT_FLOAT, ABSTRACT_INT, I32, PLAINS, SCALARS};
use names::{NamedRule, Names, Rule};
use ruled::REFERENCE;
use table::{Answer, Place, Reason, TypeNo, Typed};

// The most operands of a rule.
const MOST: usize = 4;
// The other numeric scalars, as an operand's number has them.
const U32: u8 = 4;

const F32: u8 = 5;

const F16: u8 = 6;

// The number of a numeric scalar or vector.
fn numeric_code(x: u8) -> bool
    ensures { result ≡ numeric_code x }
{
    x < PLAINS
        && matches!(
            x % SCALARS,
            ABSTRACT_INT | ABSTRACT_FLOAT | I32 | U32 | F32 | F16
        )
}

// How many operands a rule wants.
fn operands_of(rule: Rule) -> usize
    ensures { result ≡ operands_of (meant rule) }
{
    match rule {
        Rule::Row(row) => overload::operand_count(cast::wide(row)),
        Rule::Barrier => 0,
        Rule::Bitcast | Rule::ArrayLength | Rule::AtomicLoad | Rule::UniformLoad => 1,
        Rule::AtomicUpdate | Rule::AtomicStore => 2,
        Rule::AtomicCompare => 3,
    }
}

// Whether an operand is running.
pub fn any_running(args: &[u32]) -> bool
    ensures { result ≡ any_running (marks_of args.now) }
{
    args.iter().any(|v| held::running(*v))
}

// Whether an operand is both running and abstract at any depth.
fn any_clashes(words: &[u32], n: usize, args: &[u32]) -> bool
    requires { Sound words.now n × Under n (numbers args.now) }
    ensures { result ≡ running_abstract (types words.now (numbers args.now)) (marks_of args.now) }
{
    args.iter().any(|v| ruled::clashes(words, n, *v))
}

// Whether every type of a list is below n.
fn all_types(n: usize, list: &[u32]) -> bool
    ensures { result ≡ all_under n list.now }
{
    list.iter().all(|t| cast::word(*t) < n)
}

// Whether the type of every operand is.
fn all_operands(n: usize, args: &[u32]) -> bool
    ensures { result ≡ all_under n (numbers args.now) }
{
    args.iter().all(|v| held::number(*v).0 < n)
}

// The template list is as the rule wants it: one numeric scalar or vector for `bitcast`, none for every other.
fn template_right(words: &[u32], n: usize, rule: Rule, tplt: &[u32]) -> bool
    requires { Sound words.now n × Under n tplt.now }
    ensures { result ≡ template_right (meant rule) (types words.now tplt.now) }
{
    match (rule, tplt) {
        (Rule::Bitcast, [t]) => numeric_code(ruled::code_at(words, n, cast::word(*t))),
        (Rule::Bitcast, _) => false,
        _ => tplt.is_empty(),
    }
}

// The numbers of the operands, in their order, where none of them is a reference.
pub fn load<const N: usize>(words: &[u32], n: usize, args: &[u32]) -> Option<[u8; N]>
    requires { Sound words.now n × Under n (numbers args.now) × (length args.now ≤ N) }
    ensures { Loaded (types words.now (numbers args.now)) result }
{
    let mut codes = [0; N];
    for (i, v) in args.iter().enumerate() {
        let x = ruled::code_at(words, n, held::number(*v).0);
        if x == REFERENCE {
            return None;
        }
        codes[i] = x;
    }
    Some(codes)
}

// What a rule gives on as many operands as it wants, of which none is a reference: a ruled name, by their numbers; a call on memory, of which the first is the pointer.
fn given(
    words: &mut [u32],
    n: usize,
    place: Place,
    rule: Rule,
    tplt: &[u32],
    args: &[u32],
    codes: &[u8],
) -> Answer
    requires { Sound words.old n × Under n tplt.now × Under n (numbers args.now) × (template_right (meant rule) (types words.old tplt.now) ≡ true) × (length args.now ≡ operands_of (meant rule)) × (codes.now ≡ map code_of (types words.old (numbers args.now))) × (running_abstract (types words.old (numbers args.now)) (marks_of args.now) ≡ false) }
    ensures { Gave (given_outcome place.0 words.old n (given_by (meant rule) (types words.old tplt.now) (types words.old (numbers args.now)) (marks_of args.now))) result words.new }
{
    match rule {
        Rule::Row(row) => ruled::judge_codes(
            words,
            n,
            place,
            cast::wide(row),
            any_running(args),
            codes,
        ),
        Rule::Bitcast => table::accepted(TypeNo(cast::word(tplt[0])), n),
        Rule::Barrier => table::no_value(n),
        Rule::ArrayLength => memory::array_length(words, n, place, args[0]),
        Rule::UniformLoad => memory::uniform_load(words, n, place, args[0]),
        Rule::AtomicCompare => memory::comparing(words, n, place, args[0], &args[1..]),
        Rule::AtomicStore => memory::storing(words, n, place, args[0], &args[1..]),
        Rule::AtomicLoad | Rule::AtomicUpdate => {
            memory::on_atomic(words, n, place, args[0], &args[1..])
        }
    }
}

// A call of a builtin by its rule: 5, 7, 3, 14, then the rule itself.
fn by_rule(
    words: &mut [u32],
    n: usize,
    place: Place,
    rule: Rule,
    tplt: &[u32],
    args: &[u32],
) -> Answer
    requires { Sound words.old n × Under n tplt.now × Under n (numbers args.now) }
    ensures { Gave (by_meant place.0 words.old n rule (types words.old tplt.now) (types words.old (numbers args.now)) (marks_of args.now)) result words.new }
{
    if !template_right(words, n, rule, tplt) {
        return table::refused(Reason::Template, place, n);
    }
    let k = args.len();
    if k != operands_of(rule) {
        return table::refused(Reason::Operands, place, n);
    }
    let Some(codes) = load::<MOST>(words, n, args) else {
        return table::refused(Reason::Reference, place, n);
    };
    if any_clashes(words, n, args) {
        return table::refused(Reason::RunningAbstract, place, n);
    }
    given(words, n, place, rule, tplt, args, &codes[..k])
}

// A refusal at a place, which has no mark.
fn unmarked(reason: Reason, place: Place, n: usize) -> Typed
    ensures { result ≡ marked_by false (refuse reason place.0 n) }
{
    table::marked(table::refused(reason, place, n), false)
}

// A call of a builtin of a profile on loaded operands, at a place; the names are lent.
pub fn call_at(
    words: &mut [u32],
    n: usize,
    place: Place,
    names: &Names,
    profile: u32,
    name: &[u8],
    tplt: &[u32],
    args: &[u32],
) -> Typed
    requires { Sound words.old n × Under n tplt.now × Under n (numbers args.now) }
    ensures { GaveMarked (call_outcome profile place.0 words.old n name.now (types words.old tplt.now) (types words.old (numbers args.now)) (marks_of args.now)) (builtin_runs profile name.now args.now) result words.new }
{
    match names.rule_of(profile, name) {
        Some(NamedRule { rule, running }) => {
            let r = by_rule(words, n, place, Rule::from(rule), tplt, args);
            table::marked(r, running | any_running(args))
        }
        None => unmarked(Reason::Unknown, place, n),
    }
}

// For a host: the type of a call of the builtin with that name in that profile, that template list, empty for none, and those operands, each a type's number with its mark.
pub fn type_builtin_fn(
    words: &mut [u32],
    n: usize,
    profile: u32,
    name: &[u8],
    tplt: &[u32],
    args: &[u32],
) -> Typed
    ensures { GaveMarked (type_builtin_fn profile words.old n name.now tplt.now args.now) (builtin_runs profile name.now args.now) result words.new }
{
    if !table::sound(words, n) {
        return unmarked(Reason::Unsound, Place(0), n);
    }
    if !all_types(n, tplt) {
        return unmarked(Reason::NoSuchType, Place(0), n);
    }
    if !all_operands(n, args) {
        return unmarked(Reason::NoSuchType, Place(0), n);
    }
    call_at(words, n, Place(0), &Names::new(), profile, name, tplt, args)
}
