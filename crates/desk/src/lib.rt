// Why the one item of a sheet that is told about came to what it came to, piece by piece. The sheet is run once for its answer, and once more to the item, which is not run: so the stack
// and the table stand as they did before it. Both are lent.
#![tactic(auto)]

mod before;

ghost use Rattle.std.specs.Prelude.{◌≡◌, [], Some, None, ◌+◌, ◌/◌, ◌<◌, ◌≤◌, length, get_or, eqb};
ghost use Rattle.answer.specs.Answer.{reason_no};
ghost use Rattle.std.specs.Fn.{FnOnceReturnsAt};
ghost use Rattle.why.specs.inner.Asks.{Asked};
ghost use Rattle.table.specs.Table.{Sound};
ghost use Rattle.frame.specs.Frame.{is_item, name_of, Within};
ghost use Rattle.frame.specs.inner.Items.{sheet_in};
ghost use Rattle.text.specs.Text.{Put, far};
ghost use Rattle.table.specs.Table.{scalars};
ghost use Rattle.lines.specs.Lines.{start, outcome};
ghost use Rattle.reasons.specs.inner.Told.{piece_room};
ghost use Rattle.desk.specs.Told.{is_told, told_of};
ghost use Rattle.desk.specs.Desk.{unary_lines, binary_lines, call_lines, template_lines, item_lines, desk_pieces};
ghost use Rattle.desk.specs.inner.Code.{Finds, last_of, asking, state_at, pieces_of, Asking, Queries, QueriesAt, Counted};

use before::Before;
use cast::wide;
use frame::{HEADER, Item, Items, Placed};
use names::Names;
use step::Did;
use table::{Answer, Place, Reason, SCALARS};
use why::Asked;

// The item that is told, and how many values and entries stand before it.
#[derive(Clone, Copy)]
pub struct Stand {
    pub placed: Placed,
    pub count: usize,
    pub used: usize,
}

// What is asked: the single call that the item stands for, over so many entries, on the values of the stack from the first to the end.
#[derive(Clone, Copy)]
pub struct Query {
    pub asked: Asked,
    pub used: usize,
    pub first: usize,
    pub end: usize,
}

// How many operands an operator has.
const UNARY: usize = 1;

const BINARY: usize = 2;

// Whether an item stands there.
fn is_item(item: Item) -> bool
    ensures { result ≡ is_item item }
{
    !matches!(item, Item::End | Item::Bad)
}

// Whether a reason is that no overload fits.
fn none_fits(reason: Reason) -> bool
    ensures { result ≡ eqb (reason_no reason) 8 }
{
    matches!(reason, Reason::NoOverload)
}

// Whether what stands at a place of a sheet of `size` bytes is the item that is told, by the sheet's answer.
fn is_told(a: Answer, size: usize, x: Placed) -> bool
    ensures { result ≡ is_told a size x }
{
    match a {
        Answer::Value(_, _) | Answer::NoValue(_) => is_item(x.item) & (x.next.0 == size),
        Answer::Refused(r) => none_fits(r.reason) & (x.at.0 == r.place.0),
    }
}

// The item that is told, of a sheet with this answer: the items before it are run, over a stack of no values.
fn find(
    items: Items,
    names: &Names,
    profile: u32,
    a: Answer,
    table: &mut [u32],
    used: usize,
    stack: &mut [u32],
) -> Option<Stand>
    requires { Sound table.old used × (length stack.old ≡ 64) }
    ensures { Finds (sheet_in items.entry) (told_of profile table.old used (sheet_in items.entry) a) result stack.new table.new }
{
    let mut count: usize = 0;
    let mut used = used;
    let mut at = HEADER;
    loop {
        let placed = items.item(Place(at));
        if is_told(a, HEADER + items.bytes.len(), placed) {
            return Some(Stand {
                placed,
                count,
                used,
            });
        }
        let Did::Went { count: c, used: u } = step::step(
            items,
            names,
            profile,
            placed.item,
            Place(at),
            stack,
            count,
            table,
            used,
        ) else {
            return None;
        };
        at = placed.next.0;
        count = c;
        used = u;
    }
}

// The answer of a sheet over the seven scalars, in a profile.
fn answer_of(profile: u32, sheet: &[u8]) -> Answer
    ensures { result ≡ (outcome profile sheet.now).answer }
{
    let mut words = lines::scalars();
    let typed = sheet::type_sheet(&mut words, SCALARS, profile, sheet);
    typed.answer
}

// The item of a sheet that is told, over the seven scalars: the stack and the table stand then as they do before it.
fn stand_in(profile: u32, sheet: &[u8], words: &mut [u32], stack: &mut [u32]) -> Option<Stand>
    requires { (words.old ≡ start) × (length stack.old ≡ 64) }
    ensures { Finds sheet.now (told_of profile start scalars sheet.now (outcome profile sheet.now).answer) result stack.new words.new }
{
    if !frame::header(sheet) {
        return None;
    }
    let a = answer_of(profile, sheet);
    let items = Items {
        version: sheet[0],
        bytes: &sheet[HEADER..],
    };
    find(items, &Names::new(), profile, a, words, SCALARS, stack)
}

// What a call on the last k of the values asks; nothing where there are not as many.
fn on_last<F: FnOnce(&[u32]) -> Asked>(before: Before, k: usize, ask: F) -> Option<Query>
    requires { (x : _) → length x.now ≡ k → F.pre ask x }
    ensures short { before.entry.count < k → result ≡ None }
    ensures asked { k ≤ before.entry.count → (a : Asked) × FnOnceReturnsAt F.FnOnce ask (last_of k before.entry) a × (result ≡ Some (asking a k before.entry)) }
{
    let first = before.count.checked_sub(k)?;
    let asked = ask(&before.stack[first..before.count]);
    Some(Query {
        asked,
        used: before.used,
        first,
        end: before.count,
    })
}

// What a unary operator asks, on the last of the values.
fn unary_query(op: u8, before: Before) -> Option<Query>
    ensures { QueriesAt (unary_lines (state_at before.entry) op) result before.entry }
{
    on_last(
        before,
        UNARY,
        |x| why::ask_unary(before.words, before.used, wide(op), x[0]),
    )
}

// What a binary operator asks, on the last two.
fn binary_query(op: u8, before: Before) -> Option<Query>
    ensures { QueriesAt (binary_lines (state_at before.entry) op) result before.entry }
{
    on_last(
        before,
        BINARY,
        |x| why::ask_binary(before.words, before.used, wide(op), x[0], x[1]),
    )
}

// What a call asks, on the last k, with its template list.
fn call_query(profile: u32, name: &[u8], tplt: &[u32], k: u8, before: Before) -> Option<Query>
    ensures { QueriesAt (call_lines (state_at before.entry) profile name.now tplt.now k) result before.entry }
{
    on_last(
        before,
        wide(k),
        |x| why::ask_call(before.words, before.used, profile, name, tplt, x),
    )
}

// What a call with a template asks.
fn template_query(profile: u32, name: &[u8], t: usize, k: u8, before: Before) -> Option<Query>
    ensures { QueriesAt (template_lines (state_at before.entry) profile name.now t k) result before.entry }
{
    if before.used <= t {
        return None;
    }
    call_query(profile, name, &[t as u32], k, before)
}

// What an item of the sheet asks.
fn item_query(profile: u32, sheet: &[u8], item: Item, before: Before) -> Option<Query>
    requires { Within (length sheet.now) (name_of item) }
    ensures { QueriesAt (item_lines profile sheet.now (state_at before.entry) item) result before.entry }
{
    match item {
        Item::Unary(op) => unary_query(op, before),
        Item::Binary(op) => binary_query(op, before),
        Item::Call { count: k, name } => {
            let bytes = frame::part_of(sheet, name);
            call_query(profile, bytes, &[], k, before)
        }
        Item::CallTemplate {
            template,
            count: k,
            name,
        } => {
            let bytes = frame::part_of(sheet, name);
            template_query(profile, bytes, template.0, k, before)
        }
        Item::Push { .. } | Item::Take { .. } | Item::End | Item::Bad => None,
    }
}

// What is asked of a sheet, over the table of the seven scalars and a stack that are lent: they are those before the item that is told afterwards.
pub fn tell(profile: u32, sheet: &[u8], words: &mut [u32], stack: &mut [u32]) -> Option<Query>
    requires { (words.old ≡ start) × (length stack.old ≡ 64) }
    ensures { Queries (desk_pieces profile sheet.now) result stack.new words.new }
{
    let at = stand_in(profile, sheet, words, stack)?;
    let before = Before {
        words,
        used: at.used,
        stack,
        count: at.count,
    };
    item_query(profile, sheet, at.placed.item, before)
}

// How many pieces were asked for.
pub fn piece_count(q: Query) -> usize
    ensures { Counted q result }
{
    why::piece_count(q.asked)
}

// Piece j, put into a lent output from a place on; the place after it.
pub fn put_piece(
    words: &[u32],
    stack: &[u32],
    q: Query,
    j: usize,
    out: &mut [u8],
    at: usize,
) -> usize
    requires { Asking q stack.now words.now × (j < length (pieces_of q stack.now words.now)) × (at < far / 4) }
    ensures put { Put out.old at (get_or (pieces_of q stack.now words.now) j []) result out.new }
    ensures upper_bound { result ≤ at + piece_room }
{
    why::put_piece(words, q.used, q.asked, &stack[q.first..q.end], j, out, at)
}
