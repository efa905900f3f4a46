// What one item does to the stack and the table, in a profile. The stack is lent as a slice of which the first values count; an item is typed by the single call that it
// stands for.
#![tactic(auto)]

ghost use Rattle.std.specs.Prelude.{◌≡◌, ◌<◌, ◌≤◌, length};
ghost use Rattle.table.specs.Table.{Sound};
ghost use Rattle.table.specs.Denote.{type_at};
ghost use Rattle.table.specs.Placing.{Gave};
ghost use Rattle.frame.specs.Frame.{marked};
ghost use Rattle.frame.specs.inner.Items.{sheet_in, NameIn};
ghost use Rattle.call_ty.specs.Calls.{numbers, marks_of, types};
ghost use Rattle.call_ty.specs.inner.Codes.{Under};
ghost use Rattle.step.specs.Effect.{bytes_of, entry_of, push_effect, is_valued, calling, take_effect, effect_of};
ghost use Rattle.step.specs.inner.Code.{state_of, turned_away, Arity, operator_outcome, operator_effect, called_effect, Ready, Pushes, Settles, Does};

use cast::wide;
use frame::{Item, Items};
use names::Names;
use table::{Answer, Entry, Place, Reason, Refusal, TypeNo};

// How many values the stack holds.
pub const VALUES: usize = 64;

// How many operands an operator has.
const UNARY: usize = 1;

const BINARY: usize = 2;

// What an item did: it left so many values and entries; it was a call without value; the items ended; or it was refused.
// Stays: a refusal is one of four outcomes and no `Err`, as in `Effect`: the end and a call without value end a sheet too, and `effect_by` says of each of the four what it is.
#[derive(Clone, Copy)]
pub enum Did {
    Went { count: usize, used: usize },
    Silent { count: usize, used: usize },
    Ended { count: usize, used: usize },
    Refused(Refusal),
}

// A refusal of the item at a place.
fn stopped(reason: Reason, at: Place, used: usize) -> Did
    ensures { result ≡ turned_away reason at used }
{
    Did::Refused(Refusal {
        reason,
        place: at,
        used,
    })
}

// A call's answer over the first `base` values of the stack: its value becomes the next, with a mark.
fn settle(stack: &mut [u32], base: usize, running: bool, a: Answer) -> Did
    requires { (length stack.old ≡ 64) × (base ≤ 64) × Pushes base a }
    ensures { Settles base stack.old running a result stack.new }
{
    match a {
        Answer::Value(t, m) => {
            stack[base] = held::value(t, running);
            Did::Went {
                count: base + 1,
                used: m,
            }
        }
        Answer::NoValue(m) => Did::Silent {
            count: base,
            used: m,
        },
        Answer::Refused(r) => Did::Refused(r),
    }
}

fn push(
    ty: TypeNo,
    running: bool,
    at: Place,
    stack: &mut [u32],
    count: usize,
    table: &[u32],
    used: usize,
) -> Did
    requires { Ready count stack.old used table.now }
    ensures { Does (push_effect at.0 (state_of count stack.old used table.now) ty.0 running) result stack.new table.now }
{
    let index = ty.0;
    if used <= index {
        return stopped(Reason::NoSuchType, at, used);
    }
    if VALUES <= count {
        return stopped(Reason::Stack, at, used);
    }
    stack[count] = held::value(ty, running);
    Did::Went {
        count: count + 1,
        used,
    }
}

// The answer of an operator on the operands that are lent: a unary one on one, a binary one on two.
fn operator_at(op: u8, at: Place, args: &[u32], table: &mut [u32], used: usize) -> Answer
    requires { Sound table.old used × Under used (numbers args.now) × Arity (length args.now) }
    ensures { Gave (operator_outcome at.0 table.old used op (types table.old (numbers args.now)) (marks_of args.now)) result table.new }
{
    let op = wide(op);
    match *args {
        [a] => ops_ty::unary_at(table, used, at, op, a),
        [a, b] => ops_ty::binary_at(table, used, at, op, a, b),
        _ => unreachable!(),
    }
}

// An operator on the last k values; the mark of its result is kept, or not.
fn operator(
    op: u8,
    k: usize,
    keeps: bool,
    at: Place,
    stack: &mut [u32],
    count: usize,
    table: &mut [u32],
    used: usize,
) -> Did
    requires { Ready count stack.old used table.old × Arity k }
    ensures { Does (operator_effect keeps k at.0 (state_of count stack.old used table.old) op) result stack.new table.new }
{
    if count < k {
        return stopped(Reason::Stack, at, used);
    }
    let base = count - k;
    let r = operator_at(op, at, &stack[base..count], table, used);
    let running = keeps & call_ty::any_running(&stack[base..count]);
    settle(stack, base, running, r)
}

// Whether a value comes of an answer, or would come if the table had room for it.
fn is_valued(a: Answer) -> bool
    ensures { result ≡ is_valued a }
{
    match a {
        Answer::Value(_, _) => true,
        Answer::NoValue(_) => false,
        Answer::Refused(r) => matches!(r.reason, Reason::NoRoom(_)),
    }
}

// A call on the last k values, with its template list; the names are lent. On a full stack it has no operand, and its value has no place.
fn call_on(
    names: &Names,
    keeps: bool,
    profile: u32,
    name: &[u8],
    tplt: &[u32],
    k: usize,
    at: Place,
    stack: &mut [u32],
    count: usize,
    table: &mut [u32],
    used: usize,
) -> Did
    requires { Ready count stack.old used table.old × Under used tplt.now × (k ≤ count) }
    ensures { Does (calling keeps profile at.0 (state_of count stack.old used table.old) name.now (types table.old tplt.now) k) result stack.new table.new }
{
    let base = count - k;
    let r = call_ty::call_at(
        table,
        used,
        at,
        names,
        profile,
        name,
        tplt,
        &stack[base..count],
    );
    let answer = r.answer;
    if (VALUES <= base) & is_valued(answer) {
        return stopped(Reason::Stack, at, used);
    }
    settle(stack, base, keeps & r.running, answer)
}

// A call of so many operands, with or without a template.
fn call(
    names: &Names,
    keeps: bool,
    profile: u32,
    name: &[u8],
    template: Option<TypeNo>,
    k: u8,
    at: Place,
    stack: &mut [u32],
    count: usize,
    table: &mut [u32],
    used: usize,
) -> Did
    requires { Ready count stack.old used table.old }
    ensures { Does (called_effect keeps profile at.0 (state_of count stack.old used table.old) name.now template k) result stack.new table.new }
{
    let k = wide(k);
    if count < k {
        return stopped(Reason::Stack, at, used);
    }
    let Some(t) = template else {
        let list: [u32; 0] = [];
        return call_on(
            names, keeps, profile, name, &list, k, at, stack, count, table, used,
        );
    };
    if used <= t.0 {
        return stopped(Reason::NoSuchType, at, used);
    }
    let list = [t.0 as u32];
    call_on(
        names, keeps, profile, name, &list, k, at, stack, count, table, used,
    )
}

// The type of an entry, entered where it is absent, as one value more.
fn take_in(
    e: Entry,
    running: bool,
    at: Place,
    stack: &mut [u32],
    count: usize,
    table: &mut [u32],
    used: usize,
) -> Did
    requires { Ready count stack.old used table.old }
    ensures { Does (take_effect at.0 (state_of count stack.old used table.old) e running) result stack.new table.new }
{
    let allowed = table::allowed(table, used, e);
    if !allowed {
        return stopped(Reason::Template, at, used);
    }
    if VALUES <= count {
        return stopped(Reason::Stack, at, used);
    }
    let r = entering::enter(table, used, e);
    settle(stack, count, running, entering::answer_of(at, used, r))
}

// The entry that a take asks for.
fn entry(kind: u8, p: u32, q: u8, elem: u8) -> Entry
    ensures { result ≡ entry_of kind p q elem }
{
    Entry {
        kind: wide(kind),
        p,
        q: wide(q),
        elem: wide(elem),
    }
}

// What stands at a place of a sheet, in a profile, on the stack of `count` values and the table.
pub fn step(
    items: Items,
    names: &Names,
    profile: u32,
    item: Item,
    at: Place,
    stack: &mut [u32],
    count: usize,
    table: &mut [u32],
    used: usize,
) -> Did
    requires { Ready count stack.old used table.old × NameIn (length items.bytes.now) item }
    ensures { Does (effect_of profile at.0 (state_of count stack.old used table.old) (sheet_in items.entry) item) result stack.new table.new }
{
    let keeps = items.has_marks();
    match item {
        Item::Push { ty, running } => push(ty, running, at, stack, count, table, used),
        Item::Unary(op) => operator(op, UNARY, keeps, at, stack, count, table, used),
        Item::Binary(op) => operator(op, BINARY, keeps, at, stack, count, table, used),
        Item::Call { count: k, name } => {
            let name = items.name(name);
            call(
                names, keeps, profile, name, None, k, at, stack, count, table, used,
            )
        }
        Item::CallTemplate {
            template,
            count: k,
            name,
        } => {
            let name = items.name(name);
            call(
                names,
                keeps,
                profile,
                name,
                Some(template),
                k,
                at,
                stack,
                count,
                table,
                used,
            )
        }
        Item::Take {
            kind,
            p,
            q,
            elem,
            running,
        } => take_in(
            entry(kind, p, q, elem),
            running,
            at,
            stack,
            count,
            table,
            used,
        ),
        Item::End => Did::Ended { count, used },
        Item::Bad => stopped(Reason::Framing, at, used),
    }
}
