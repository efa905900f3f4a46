// A sheet typed item by item, in a profile. The header is judged once, and the part after it is handed on; the names, the stack and the memo belong to `run` and are lent inwards.
#![tactic(auto)]

ghost use Rattle.std.specs.Prelude.{false, ◌≡◌, ◌≤◌, length, get_or, take};
ghost use Rattle.table.specs.Table.{Sound};
ghost use Rattle.table.specs.Placing.{GaveMarked};
ghost use Rattle.answer.specs.Answer.{marked_by};
ghost use Rattle.held.specs.Held.{mark_of};
ghost use Rattle.frame.specs.Frame.{header_size, item_at, items_from};
ghost use Rattle.frame.specs.inner.Items.{sheet_in};
ghost use Rattle.sheet.specs.Machine.{end_answer, left_answer, turn_of, end_mark, run_items, runs_items, begun, type_sheet, sheet_runs};
ghost use Rattle.memo.specs.inner.Memo.{Recalls};
ghost use Rattle.step.specs.Effect.{effect_of};
ghost use Rattle.step.specs.inner.Code.{state_of, Ready, Counted};
ghost use Rattle.sheet.specs.inner.Code.{TurnsBy, Turns, AfterTurn, Rushes, RushesIn};

use frame::{HEADER, Items};
use memo::Memo;
use names::Names;
use std::ops::ControlFlow;
use step::{Did, VALUES};
use table::{Answer, Place, Reason, Typed};

// A call's name, as that part of the lent sheet.
pub use frame::call_name;

// Where a run stands: the place of the next item, and how many values and entries there are.
#[derive(Clone, Copy)]
pub struct Here {
    pub at: Place,
    pub count: usize,
    pub used: usize,
}

// The answer at the end of a sheet of `size` bytes: the one value that stands, with its mark.
fn finish(size: usize, stack: &[u32], count: usize, used: usize) -> Typed
    requires { (length stack.now ≡ 64) × (count ≤ 64) }
    ensures { result ≡ marked_by (mark_of (get_or (take count stack.now) 0 0)) (end_answer size (take count stack.now) used) }
{
    if count == 1 {
        let v = stack[0];
        return table::marked(table::accepted(held::number(v), used), held::running(v));
    }
    unmarked(table::refused(Reason::Stack, Place(size), used))
}

// An answer without a running value.
fn unmarked(a: Answer) -> Typed
    ensures { result ≡ marked_by false a }
{
    table::marked(a, false)
}

// The answer of a call without value at a place: it is the last item, and no value stands below it.
fn leave(size: usize, at: Place, next: Place, count: usize, used: usize) -> Answer
    ensures { result ≡ left_answer size at.0 next.0 count used }
{
    if count != 0 {
        return table::refused(Reason::Stack, at, used);
    }
    if next.0 == size {
        return table::no_value(used);
    }
    table::refused(Reason::Stack, at, used)
}

// The turn after what an item at a place did, in a sheet of `size` bytes: the run goes on, or the sheet is answered.
fn turn_by(d: Did, size: usize, at: Place, next: Place, stack: &[u32]) -> ControlFlow<Typed, Here>
    requires { (length stack.now ≡ 64) × Counted d }
    ensures { TurnsBy size at.0 next.0 d stack.now result }
{
    match d {
        Did::Went { count, used } => ControlFlow::Continue(Here {
            at: next,
            count,
            used,
        }),
        Did::Silent { count, used } => {
            ControlFlow::Break(unmarked(leave(size, at, next, count, used)))
        }
        Did::Ended { count, used } => ControlFlow::Break(finish(size, stack, count, used)),
        Did::Refused(r) => ControlFlow::Break(unmarked(Answer::Refused(r))),
    }
}

// One turn of the machine.
fn one_turn(
    items: Items,
    names: &Names,
    profile: u32,
    here: Here,
    stack: &mut [u32],
    table: &mut [u32],
    memo: &mut Memo,
) -> ControlFlow<Typed, Here>
    requires { Ready here.count stack.old here.used table.old × Recalls memo.old.slots table.old here.used }
    ensures { Turns (turn_of profile (sheet_in items.entry) (item_at (sheet_in items.entry) here.at.0) (state_of here.count stack.old here.used table.old)) (end_mark (effect_of profile here.at.0 (state_of here.count stack.old here.used table.old) (sheet_in items.entry) (item_at (sheet_in items.entry) here.at.0).item)) (item_at (sheet_in items.entry) here.at.0).next.0 result stack.new table.new × AfterTurn result memo.new.slots table.new }
{
    let found = items.item(here.at);
    let d = memo::noted_step(
        items, names, profile, found.item, here.at, stack, here.count, table, here.used, memo,
    );
    turn_by(d, HEADER + items.bytes.len(), here.at, found.next, stack)
}

// From a place on, as long as the items are quick.
fn rush(items: Items, from: Here, stack: &mut [u32], table: &[u32], memo: &Memo) -> Here
    requires { Ready from.count stack.old from.used table.now × Recalls memo.now.slots table.now from.used }
    ensures { Rushes (sheet_in items.entry) from.at.0 from.count stack.old from.used table.now result stack.new }
{
    let mut here = from;
    while let Some(went) = memo::quick_at(
        items, here.at, stack, here.count, table, here.used, memo,
    ) {
        here.at = Place(here.at.0 + went.bytes);
        here.count = went.count;
    }
    here
}

// From a place on, as long as the items are quick or calls that the memo has.
fn rush_calls(
    items: Items,
    names: &Names,
    profile: u32,
    from: Here,
    stack: &mut [u32],
    table: &[u32],
    memo: &Memo,
) -> Here
    requires { Ready from.count stack.old from.used table.now × Recalls memo.now.slots table.now from.used }
    ensures { RushesIn profile (sheet_in items.entry) from.at.0 from.count stack.old from.used table.now result stack.new }
{
    let mut here = from;
    loop {
        let left = rush(items, here, stack, table, memo);
        let Some(went) = memo::call_at(
            items, names, profile, left.at, stack, left.count, table, left.used, memo,
        ) else {
            return left;
        };
        here = Here {
            at: Place(left.at.0 + went.bytes),
            count: went.count,
            used: left.used,
        };
    }
}

// The items from the first to the end, or to the first that is refused, over a stack of no values and a memo that has nothing.
fn run_on(
    items: Items,
    names: &Names,
    profile: u32,
    table: &mut [u32],
    used: usize,
    stack: &mut [u32],
    memo: &mut Memo,
) -> Typed
    requires { Sound table.old used × (length stack.old ≡ 64) × Recalls memo.old.slots table.old used }
    ensures { GaveMarked (run_items profile (sheet_in items.entry) (items_from (sheet_in items.entry) header_size) (begun table.old used)) (runs_items profile (sheet_in items.entry) (items_from (sheet_in items.entry) header_size) (begun table.old used)) result table.new }
{
    let mut here = Here {
        at: Place(HEADER),
        count: 0,
        used,
    };
    loop {
        let left = rush_calls(items, names, profile, here, stack, table, memo);
        match one_turn(items, names, profile, left, stack, table, memo) {
            ControlFlow::Continue(next) => {
                here = next;
            }
            ControlFlow::Break(a) => {
                return a;
            }
        }
    }
}

// The same over the names, a stack and a memo of its own.
fn run(items: Items, profile: u32, table: &mut [u32], used: usize) -> Typed
    requires { Sound table.old used }
    ensures { GaveMarked (run_items profile (sheet_in items.entry) (items_from (sheet_in items.entry) header_size) (begun table.old used)) (runs_items profile (sheet_in items.entry) (items_from (sheet_in items.entry) header_size) (begun table.old used)) result table.new }
{
    let mut values = [0u32; VALUES];
    let mut memo = Memo::new();
    run_on(
        items,
        &Names::new(),
        profile,
        table,
        used,
        &mut values,
        &mut memo,
    )
}

// For a host: the type of a whole sheet over a table of n entries, in a profile.
pub fn type_sheet(words: &mut [u32], n: usize, profile: u32, sheet: &[u8]) -> Typed
    ensures { GaveMarked (type_sheet profile words.old n sheet.now) (sheet_runs profile words.old n sheet.now) result words.new }
{
    if !table::sound(words, n) {
        return unmarked(table::refused(Reason::Unsound, Place(0), n));
    }
    if !frame::header(sheet) {
        return unmarked(table::refused(Reason::Framing, Place(0), n));
    }
    if names::PROFILES <= profile {
        return unmarked(table::refused(Reason::Unknown, Place(0), n));
    }
    let items = Items {
        version: sheet[0],
        bytes: &sheet[HEADER..],
    };
    run(items, profile, words, n)
}
