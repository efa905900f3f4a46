// What a run has met before: an operator or a call of a builtin that was typed on the same values gives the same type, which is recalled, and not typed again.
#![tactic(auto)]

mod key;

ghost use Rattle.std.specs.Prelude.{ℕ, List, ◌≡◌, ◌+◌, ◌<◌, ◌≤◌, ◌^◌, length};
ghost use Rattle.held.specs.Held.{number_of};
ghost use Rattle.call_ty.specs.Calls.{numbers};
ghost use Rattle.frame.specs.inner.Items.{sheet_in, item_of, LiesIn, NameIn};
ghost use Rattle.frame.specs.declared.Item.TheVariants.{Unary, Binary, Call};
ghost use Rattle.frame.specs.declared.ShortItem.TheVariants as short;
ghost use Rattle.call_ty.specs.inner.Codes.{Under};
ghost use Rattle.step.specs.Effect.{effect_of};
ghost use Rattle.step.specs.inner.Code.{state_of, Ready, Does};
ghost use Rattle.memo.specs.inner.Memo.{digit_of, digits, key_of, Recalls, Hinted, Recalled, Noted, Leaves, NotedStep, AfterStep};
ghost use Rattle.memo.specs.inner.Asking.{Small, runs_on, Asks, AsksEver, AsksRow, Keyed, ItemKeyed};
ghost use Rattle.memo.specs.inner.Quick.{Answers, Quick, QuickEver, QuickAt, CallAt};

use cast::{wide, word64};
use frame::{Item, Items, Part, Short, ShortItem};
use key::{Ask, Key};
use names::{NamedRule, Names};
use step::{Did, VALUES};
use table::{Place, TypeNo};

// How many numbers the memo has: the values that it holds and, from FIRST_HINT on, rows in which names were found.
pub const SLOTS: usize = 320;

const FIRST_HINT: usize = 256;

const HINTS: usize = 64;

// How many operators there are, below which number the rules of builtins are, and how many operands of a call are looked at.
const BINARY_OPS: u8 = 18;

const UNARY_OPS: u8 = 5;

const RULES: u8 = 128;

const OPERANDS: u8 = 3;

// The code of the first of each in the memo.
const BINARY_CODES: u64 = 1;

const UNARY_CODES: u64 = 19;

const BUILTIN_CODES: u64 = 24;

// How a slot is found, and a hint.
const MIX_CODE: u64 = 9;

const MIX_SECOND: u64 = 85;

const MIX_THIRD: u64 = 37;

const MIX_BEGIN: usize = 17;

const MIX_MIDDLE: usize = 55;

const MIX_END: usize = 31;

// What a quick item left: how many values stand then, and how many bytes it has.
#[derive(Clone, Copy)]
pub struct Went {
    pub count: usize,
    pub bytes: usize,
}

// THE MEMO

// The first of the two slots of what is asked on one to three operands. Any would do: a slot says itself what it holds. It is found beside the key, from the bytes of the operands as they stand: what is
// read from the memo then waits for neither.
fn mixed(code: u64, args: &[u32]) -> u64
    requires { (code < 256) × (1 ≤ length args.now) }
    ensures { result < 2 ^ 32 }
{
    let one = code * MIX_CODE + word64(args[0] % 256);
    if args.len() < 2 {
        return one;
    }
    let two = one + word64(args[1] % 256) * MIX_SECOND;
    if args.len() < 3 {
        return two;
    }
    two + word64(args[2] % 256) * MIX_THIRD
}

fn slot_of(mix: u64) -> usize
    ensures { result + 1 < 256 }
{
    (mix % 128 * 2) as usize
}

// Where the memo has a hint for a name: the row in which one of this place was found last. Any place would do: whether that row has the name is asked of the names.
fn hint_of(name: &[u8]) -> usize
    ensures { (256 ≤ result) × (result < 320) }
{
    let length = name.len();
    if length == 0 {
        return FIRST_HINT;
    }
    let ends = wide::<usize>(name[0]) * MIX_BEGIN + wide::<usize>(name[length - 1]) * MIX_END;
    let mix = ends + wide::<usize>(name[length / 2]) * MIX_MIDDLE + length % HINTS;
    FIRST_HINT + mix % HINTS
}

// What a run has met: types that were given, each in a slot that says for what, and behind them hints.
// Stays: a slot is a number, as `slot_of` and `Holds` have it, and no Option of a key and a type: 0 is no key's, and one read and one comparison find it.
// Stays: one array and no second one for the hints, since the edit `hint_over_a_value` is that a hint falls on a slot.
#[derive(Drop)]
pub struct Memo {
    pub slots: [u64; SLOTS],
}

impl Memo {
    // One that has met nothing.
    pub fn new() -> Memo
        ensures { (w : List ℕ) (n : ℕ) → Recalls result.slots w n }
    {
        Memo { slots: [0; SLOTS] }
    }

    // The type that it has for a key.
    fn recall(&self, key: Key) -> Option<TypeNo>
        ensures { Recalled self.now.slots key.number result }
    {
        let v = self.slots[key.slot];
        if v / 256 == key.number {
            return Some(TypeNo((v % 256) as usize));
        }
        let u = self.slots[key.slot + 1];
        if u / 256 == key.number {
            return Some(TypeNo((u % 256) as usize));
        }
        None
    }

    // Notes the type for a key in its first slot; what that had moves to the second.
    fn note(&mut self, key: Key, t: TypeNo)
        requires { t.0 < 256 }
        ensures { Noted self.old.slots key.number t.0 self.new.slots }
    {
        self.slots[key.slot + 1] = self.slots[key.slot];
        self.slots[key.slot] = key.number * 256 + (t.0 as u64);
    }

    // Notes what an item left, where it went.
    fn note_did(&mut self, key: Key, d: Did, stack: &[u32])
        requires { Leaves d stack.now }
        ensures { NotedStep self.old.slots key.number d stack.now self.new.slots }
    {
        if let Did::Went { count, used: _ } = d {
            self.note(key, held::number(stack[count - 1]));
        }
    }

    // The row that is hinted for a name, and a new one.
    fn hint(&self, name: &[u8]) -> usize {
        self.slots[hint_of(name)] as usize
    }

    fn set_hint(&mut self, name: &[u8], row: usize)
        ensures { Hinted self.old.slots self.new.slots }
    {
        self.slots[hint_of(name)] = row as u64;
    }
}

// WHAT IS ASKED

fn asked_unary(op: u8) -> Option<Ask>
    ensures { AsksEver (Unary op) result }
{
    if UNARY_OPS <= op {
        return None;
    }
    Some(Ask {
        code: UNARY_CODES + wide::<u64>(op),
        operands: 1,
        runs: false,
    })
}

fn asked_binary(op: u8) -> Option<Ask>
    ensures { AsksEver (Binary op) result }
{
    if BINARY_OPS <= op {
        return None;
    }
    Some(Ask {
        code: BINARY_CODES + wide::<u64>(op),
        operands: 2,
        runs: false,
    })
}

// A call of a builtin on k operands asks by the rule that the row of its name has in a profile.
fn asked_row(names: &Names, profile: u32, row: usize, k: u8) -> Option<Ask>
    ensures { AsksRow profile row k result }
{
    if (k < 1) | (OPERANDS < k) {
        return None;
    }
    let Some(NamedRule { rule, running }) = names.rule_at(profile, row) else {
        return None;
    };
    if RULES <= rule {
        return None;
    }
    Some(Ask {
        code: BUILTIN_CODES + wide::<u64>(rule),
        operands: wide(k),
        runs: running,
    })
}

// The row of its name is looked for, and becomes the hint.
fn asked_call(
    items: Items,
    names: &Names,
    profile: u32,
    name: Part,
    k: u8,
    memo: &mut Memo,
) -> Option<Ask>
    requires { LiesIn (length items.bytes.now) name }
    ensures { Asks profile (sheet_in items.entry) (Call k name) result × Hinted memo.old.slots memo.new.slots }
{
    let bytes = items.name(name);
    let row = names.find(bytes)?;
    memo.set_hint(bytes, row);
    asked_row(names, profile, row, k)
}

// The same by the hint; nothing is asked where that is no row of this name.
fn asked_again(
    items: Items,
    names: &Names,
    profile: u32,
    name: Part,
    k: u8,
    memo: &Memo,
) -> Option<Ask>
    requires { LiesIn (length items.bytes.now) name }
    ensures { Asks profile (sheet_in items.entry) (Call k name) result }
{
    let bytes = items.name(name);
    let row = memo.hint(bytes);
    if !names.has_name(row, bytes) {
        return None;
    }
    asked_row(names, profile, row, k)
}

fn asked(items: Items, names: &Names, profile: u32, item: Item, memo: &mut Memo) -> Option<Ask>
    requires { NameIn (length items.bytes.now) item }
    ensures { Asks profile (sheet_in items.entry) item result × Hinted memo.old.slots memo.new.slots }
{
    match item {
        Item::Unary(op) => asked_unary(op),
        Item::Binary(op) => asked_binary(op),
        Item::Call { count: k, name } => asked_call(items, names, profile, name, k, memo),
        _ => None,
    }
}

// The digit of an operand: the number of its type, and 256 more where it is running.
fn digit(v: u32) -> u64
    requires { number_of v < 256 }
    ensures { (result ≡ digit_of v) × (result < 512) }
{
    let t = held::number(v);
    let number = t.0 as u64;
    if held::running(v) {
        return number + 256;
    }
    number
}

// A code and the digits of its operands, as one number.
fn key_on(code: u64, args: &[u32]) -> u64
    requires { (code < 256) × Under 256 (numbers args.now) × (1 ≤ length args.now) × (length args.now ≤ 3) }
    ensures { (result ≡ key_of code (digits args.now)) × (result < 2 ^ 35) }
{
    let one = code * 512 + digit(args[0]);
    if args.len() == 1 {
        return one;
    }
    let two = one * 512 + digit(args[1]);
    if args.len() == 2 {
        return two;
    }
    two * 512 + digit(args[2])
}

// The mark of what is asked on these operands.
fn runs_on(keeps: bool, runs: bool, args: &[u32]) -> bool
    ensures { result ≡ runs_on keeps runs args.now }
{
    if !keeps {
        return false;
    }
    runs | call_ty::any_running(args)
}

// The key of what is asked on the last of the values; none where values lack.
fn keyed(keeps: bool, a: Ask, stack: &[u32], count: usize) -> Option<Key>
    requires { Small count stack.now }
    ensures { Keyed a keeps count stack.now result }
{
    if count < a.operands {
        return None;
    }
    let base = count - a.operands;
    let number = key_on(a.code, &stack[base..count]);
    let slot = slot_of(mixed(a.code, &stack[base..count]));
    Some(Key {
        number,
        slot,
        base,
        running: runs_on(keeps, a.runs, &stack[base..count]),
    })
}

// And of what an item asks.
fn item_key(
    items: Items,
    names: &Names,
    profile: u32,
    item: Item,
    stack: &[u32],
    count: usize,
    memo: &mut Memo,
) -> Option<Key>
    requires { NameIn (length items.bytes.now) item × Small count stack.now }
    ensures { ItemKeyed profile (sheet_in items.entry) item count stack.now result × Hinted memo.old.slots memo.new.slots }
{
    let ask = asked(items, names, profile, item, memo)?;
    keyed(items.has_marks(), ask, stack, count)
}

// QUICK ITEMS: a push, and an operator or a call that the memo has, change the stack alone. Each answers how many values stand then; none where it is not quick.

fn quick_push(
    t: TypeNo,
    running: bool,
    stack: &mut [u32],
    count: usize,
    table: &[u32],
    used: usize,
) -> Option<usize>
    requires { Ready count stack.old used table.now }
    ensures { QuickEver (short.Push t running) count stack.old used table.now result stack.new }
{
    if used <= t.0 {
        return None;
    }
    if VALUES <= count {
        return None;
    }
    stack[count] = held::value(t, running);
    Some(count + 1)
}

// What is asked, by the memo.
fn recalled(
    keeps: bool,
    ask: Ask,
    stack: &mut [u32],
    count: usize,
    table: &[u32],
    used: usize,
    memo: &Memo,
) -> Option<usize>
    requires { Ready count stack.old used table.now × Recalls memo.now.slots table.now used }
    ensures { Answers keeps ask count stack.old used table.now result stack.new }
{
    let key = keyed(keeps, ask, stack, count)?;
    let t = memo.recall(key)?;
    stack[key.base] = held::value(t, key.running);
    Some(key.base + 1)
}

// A push or an operator.
fn quick(
    keeps: bool,
    x: ShortItem,
    stack: &mut [u32],
    count: usize,
    table: &[u32],
    used: usize,
    memo: &Memo,
) -> Option<usize>
    requires { Ready count stack.old used table.now × Recalls memo.now.slots table.now used }
    ensures { Quick keeps x count stack.old used table.now result stack.new }
{
    let ask = match x {
        ShortItem::Push { ty, running } => {
            return quick_push(ty, running, stack, count, table, used);
        }
        ShortItem::Unary(op) => asked_unary(op)?,
        ShortItem::Binary(op) => asked_binary(op)?,
    };
    recalled(keeps, ask, stack, count, table, used, memo)
}

// The item at a place, where it is a quick one.
pub fn quick_at(
    items: Items,
    at: Place,
    stack: &mut [u32],
    count: usize,
    table: &[u32],
    used: usize,
    memo: &Memo,
) -> Option<Went>
    requires { Ready count stack.old used table.now × Recalls memo.now.slots table.now used }
    ensures { QuickAt (sheet_in items.entry) at.0 count stack.old used table.now result stack.new }
{
    let x = items.short(at)?;
    let left = quick(items.has_marks(), x.item, stack, count, table, used, memo)?;
    Some(Went {
        count: left,
        bytes: x.bytes,
    })
}

// The same of a call in a profile, where the memo has its name and what it gives.
pub fn call_at(
    items: Items,
    names: &Names,
    profile: u32,
    at: Place,
    stack: &mut [u32],
    count: usize,
    table: &[u32],
    used: usize,
    memo: &Memo,
) -> Option<Went>
    requires { Ready count stack.old used table.now × Recalls memo.now.slots table.now used }
    ensures { CallAt profile (sheet_in items.entry) at.0 count stack.old used table.now result stack.new }
{
    let found = items.item(at);
    let Item::Call { count: k, name } = found.item else {
        return None;
    };
    let ask = asked_again(items, names, profile, name, k, memo)?;
    let stand = recalled(items.has_marks(), ask, stack, count, table, used, memo)?;
    Some(Went {
        count: stand,
        bytes: found.next.0 - at.0,
    })
}

// What stands at a place of the sheet: recalled where the memo has it, else typed, and noted. The memo is that of a run, which has one profile.
pub fn noted_step(
    items: Items,
    names: &Names,
    profile: u32,
    item: Item,
    at: Place,
    stack: &mut [u32],
    count: usize,
    table: &mut [u32],
    used: usize,
    memo: &mut Memo,
) -> Did
    requires { Ready count stack.old used table.old × NameIn (length items.bytes.now) item × Recalls memo.old.slots table.old used }
    ensures { Does (effect_of profile at.0 (state_of count stack.old used table.old) (sheet_in items.entry) item) result stack.new table.new × AfterStep result memo.new.slots table.new }
{
    let Some(key) = item_key(items, names, profile, item, stack, count, memo) else {
        return step::step(items, names, profile, item, at, stack, count, table, used);
    };
    if let Some(t) = memo.recall(key) {
        stack[key.base] = held::value(t, key.running);
        return Did::Went {
            count: key.base + 1,
            used,
        };
    }
    let d = step::step(items, names, profile, item, at, stack, count, table, used);
    memo.note_did(key, d, stack);
    d
}
