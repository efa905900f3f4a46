// The sheet's header and its items. An item is answered by value, with its own place and the place of the next.
#![tactic(auto)]

ghost use Rattle.std.specs.Prelude.{◌≡◌, ℕ, ◌+◌, ◌<◌, ◌≤◌, ◌^◌, length, get_or};
ghost use Rattle.frame.specs.Frame.{version2, known_version, marked, header_size, kind_push, header_ok, still, mark_bytes, push_item, take_item, payload_item, item_at, name_part, Within, IsPart};
ghost use Rattle.frame.specs.inner.Items.{sheet_of, sheet_in, short_of, in_items, LiesIn};
ghost use Rattle.frame.specs.inner.Payloads.{mark_read, name_read, number_read, placed, short_as};

use answer::{Place, TypeNo};
use cast::wide;

// The versions that are read, the bytes of the header, and the most bytes that may follow it.
pub const VERSION_1: u8 = 1;

pub const VERSION_2: u8 = 2;

pub const HEADER: usize = 3;

pub const LONGEST: usize = 60000;

// The kinds of items.
// Stays: numbers, since they are the bytes of a sheet (document 01), any byte there is: `payload_item` of specs/Frame.antt answers each. `ShortItem` and `Item` say what was read.
pub const ITEM_PUSH: u8 = 1;

pub const ITEM_UNARY: u8 = 2;

pub const ITEM_BINARY: u8 = 3;

pub const ITEM_CALL: u8 = 4;

pub const ITEM_TEMPLATE: u8 = 5;

pub const ITEM_TAKE: u8 = 6;

// How many bytes the payload of a push, a unary or a binary has, and that of a take; under version 2 a push and a take have a mark besides.
const ONE_NUMBER: usize = 1;

const ENTRY_NUMBERS: usize = 7;

// How many numbers stand before the name of a call, and of a call with template; and how long a name may be.
const CALL_NUMBERS: usize = 1;

const TEMPLATE_NUMBERS: usize = 2;

const NAME_LONGEST: usize = 32;

// The mark byte of a value that is known only when running, and that of any other; no other byte is a mark.
const MARK_RUNNING: u8 = 1;

const MARK_CONST: u8 = 0;

// How many bytes a push and an operator have, and how many of them follow the length byte; and those of a push with a mark.
pub const SHORT_BYTES: usize = 3;

const SHORT_FOLLOWING: u8 = 2;

const MARKED_BYTES: usize = 4;

const MARKED_FOLLOWING: u8 = 3;

// A part of the lent sheet: where it begins and how many bytes it has.
#[derive(Clone, Copy)]
pub struct Part {
    pub start: Place,
    pub length: usize,
}

// What stands at a place of a sheet: one of the six items, or instead of an item its end or bad framing.
// Stays: the end and bad framing are no `None` or `Err`, since `items_from` lists them as what stands last, and `effect_of` and `Visits` say of them what they come to.
#[derive(Clone, Copy)]
pub enum Item {
    Push {
        ty: TypeNo,
        running: bool,
    },
    Unary(u8),
    Binary(u8),
    Call {
        count: u8,
        name: Part,
    },
    CallTemplate {
        template: TypeNo,
        count: u8,
        name: Part,
    },
    Take {
        kind: u8,
        p: u32,
        q: u8,
        elem: u8,
        running: bool,
    },
    End,
    Bad,
}

// An item with its own place and the place of the next; the end and bad framing have no next, and give their own.
#[derive(Clone, Copy)]
pub struct Placed {
    pub item: Item,
    pub at: Place,
    pub next: Place,
}

// A push or an operator.
#[derive(Clone, Copy)]
pub enum ShortItem {
    Push { ty: TypeNo, running: bool },
    Unary(u8),
    Binary(u8),
}

// A push or an operator, and how many bytes it has.
#[derive(Clone, Copy)]
pub struct Short {
    pub item: ShortItem,
    pub bytes: usize,
}

// The part of a sheet after its header, with the sheet's version. Places are counted from the sheet's first byte there too.
// Stays: the version is a byte and no enum of those that are read, since `item_at` and `call_name` read sheets whose header nobody has judged.
#[derive(Clone, Copy)]
pub struct Items<'a> {
    pub version: u8,
    pub bytes: &'a [u8],
}

// Whether the version is read.
fn known_version(version: u8) -> bool
    ensures { result ≡ known_version version }
{
    matches!(version, VERSION_1 | VERSION_2)
}

// Whether the header is right: a version that is read, a length that is not too large, and as many bytes after the header.
pub fn header(sheet: &[u8]) -> bool
    ensures { result ≡ header_ok sheet.now }
{
    let [version, high, low, ..] = sheet else {
        return false;
    };
    if !known_version(*version) {
        return false;
    }
    let len = wide::<usize>(*high) * 256 + wide::<usize>(*low);
    if LONGEST < len {
        return false;
    }
    sheet.len() == HEADER + len
}

// Where no item stands: the end, or bad framing.
fn no_item(item: Item, at: Place) -> Placed
    ensures { result ≡ still item at.0 }
{
    Placed { item, at, next: at }
}

// PAYLOADS. Where a sheet has marks, a push and a take end with a mark byte. Where it has none there is no such byte, which is the mark of a const.

fn mark_bytes(marks: bool) -> usize
    ensures { (result ≡ mark_bytes marks) × (result ≤ 1) }
{
    if marks { 1 } else { 0 }
}

// Whether a payload of n bytes before its mark is marked as running; none where it is longer or shorter, or has a byte there that is no mark.
fn mark(marks: bool, p: &[u8], n: usize) -> Option<bool>
    requires { n < 8 }
    ensures { result ≡ mark_read marks p.now n }
{
    if p.len() != n + mark_bytes(marks) {
        return None;
    }
    let mark = if marks { p[n] } else { MARK_CONST };
    match mark {
        MARK_CONST => Some(false),
        MARK_RUNNING => Some(true),
        _ => None,
    }
}

// The number of a payload that is no more than a number.
fn number(p: &[u8]) -> Option<u8>
    ensures { result ≡ number_read p.now }
{
    if p.len() != ONE_NUMBER {
        return None;
    }
    Some(p[0])
}

// The name of a payload that begins at a byte of the sheet, behind n numbers; none where it is empty or too long.
fn name(p: &[u8], from: usize, n: usize) -> Option<Part>
    requires { (n < 8) × (from + length p.now < 2 ^ 64) }
    ensures { result ≡ name_read from p.now n }
{
    if p.len() <= n {
        return None;
    }
    if n + NAME_LONGEST < p.len() {
        return None;
    }
    Some(Part {
        start: Place(from + n),
        length: p.len() - n,
    })
}

fn push(marks: bool, p: &[u8]) -> Option<Item>
    ensures { (at : ℕ) → placed at p.now result ≡ push_item at p.now marks }
{
    let running = mark(marks, p, ONE_NUMBER)?;
    Some(Item::Push {
        ty: TypeNo(wide(p[0])),
        running,
    })
}

fn take(marks: bool, p: &[u8]) -> Option<Item>
    ensures { (at : ℕ) → placed at p.now result ≡ take_item at p.now marks }
{
    let running = mark(marks, p, ENTRY_NUMBERS)?;
    Some(Item::Take {
        kind: p[0],
        p: u32::from_be_bytes([p[1], p[2], p[3], p[4]]),
        q: p[5],
        elem: p[6],
        running,
    })
}

// The item at a place, by its kind and its payload, a part of the sheet; none where that is bad framing.
fn payload(marks: bool, at: Place, kind: u8, p: &[u8]) -> Option<Item>
    requires { at.0 + 2 + length p.now < 2 ^ 64 }
    ensures { placed at.0 p.now result ≡ payload_item at.0 p.now marks kind }
{
    let from = at.0 + 2;
    match kind {
        ITEM_PUSH => push(marks, p),
        ITEM_UNARY => Some(Item::Unary(number(p)?)),
        ITEM_BINARY => Some(Item::Binary(number(p)?)),
        ITEM_CALL => {
            let name = name(p, from, CALL_NUMBERS)?;
            Some(Item::Call { count: p[0], name })
        }
        ITEM_TEMPLATE => {
            let name = name(p, from, TEMPLATE_NUMBERS)?;
            Some(Item::CallTemplate {
                template: TypeNo(wide(p[0])),
                count: p[1],
                name,
            })
        }
        ITEM_TAKE => take(marks, p),
        _ => None,
    }
}

// SHORT ITEMS: a push and the operators, read in the part after the header.

// A push without a mark or an operator, by its kind and its number.
fn short_item(kind: u8, number: u8) -> Option<ShortItem>
    ensures { result ≡ short_as kind number }
{
    match kind {
        ITEM_PUSH => Some(ShortItem::Push {
            ty: TypeNo(wide(number)),
            running: false,
        }),
        ITEM_UNARY => Some(ShortItem::Unary(number)),
        ITEM_BINARY => Some(ShortItem::Binary(number)),
        _ => None,
    }
}

// The push of version 2 that begins at this byte of the part after the header.
fn marked_push(items: &[u8], first: usize) -> Option<Short>
    requires { (first + 3 ≤ length items.now) × (get_or items.now (first + 1) 0 ≡ kind_push) }
    ensures { result ≡ short_of (item_at (sheet_of version2 items.now) (header_size + first)) }
{
    if items[first] != MARKED_FOLLOWING {
        return None;
    }
    if items.len() - first < MARKED_BYTES {
        return None;
    }
    let mark = items[first + 3];
    if MARK_RUNNING < mark {
        return None;
    }
    let item = ShortItem::Push {
        ty: TypeNo(wide(items[first + 2])),
        running: mark == MARK_RUNNING,
    };
    Some(Short {
        item,
        bytes: MARKED_BYTES,
    })
}

impl<'a> Items<'a> {
    // Whether the sheet has marks: a push and a take end with one, and results keep theirs.
    pub fn has_marks(self) -> bool
        ensures { result ≡ marked (sheet_in self.entry) }
    {
        self.version == VERSION_2
    }

    // What stands at a place of the sheet.
    pub fn item(self, at: Place) -> Placed
        ensures { result ≡ item_at (sheet_in self.entry) at.0 }
    {
        if at.0 < HEADER {
            return no_item(Item::Bad, at);
        }
        let items = self.bytes;
        let first = at.0 - HEADER;
        if items.len() <= first {
            return no_item(Item::End, at);
        }
        let len: usize = wide(items[first]);
        if len == 0 {
            return no_item(Item::Bad, at);
        }
        if items.len() - first <= len {
            return no_item(Item::Bad, at);
        }
        let kind = items[first + 1];
        let from = first + 2;
        let to = first + 1 + len;
        match payload(self.has_marks(), at, kind, &items[from..to]) {
            Some(item) => Placed {
                item,
                at,
                next: Place(at.0 + 1 + len),
            },
            None => Placed {
                item: Item::Bad,
                at,
                next: at,
            },
        }
    }

    // The push or the operator that stands at a place.
    pub fn short(self, at: Place) -> Option<Short>
        ensures { result ≡ short_of (item_at (sheet_in self.entry) at.0) }
    {
        if at.0 < HEADER {
            return None;
        }
        let items = self.bytes;
        let first = at.0 - HEADER;
        if items.len() < first + SHORT_BYTES {
            return None;
        }
        let kind = items[first + 1];
        if self.has_marks() {
            if kind == ITEM_PUSH {
                return marked_push(items, first);
            }
        }
        let item = short_item(kind, items[first + 2])?;
        if items[first] != SHORT_FOLLOWING {
            return None;
        }
        Some(Short {
            item,
            bytes: SHORT_BYTES,
        })
    }

    // A name that lies in the part after the header, as that part of it.
    pub fn name(self, name: Part) -> &'a [u8]
        requires { LiesIn (length self.bytes.now) name }
        ensures { IsPart self.entry.bytes (in_items name) result }
    {
        let start = name.start;
        part_of(
            self.bytes,
            Part {
                start: Place(start.0 - HEADER),
                length: name.length,
            },
        )
    }
}

// What stands at a place of a sheet.
pub fn item_at(sheet: &[u8], at: Place) -> Placed
    ensures { result ≡ item_at sheet.now at.0 }
{
    if at.0 < HEADER {
        return no_item(Item::Bad, at);
    }
    if sheet.len() < HEADER {
        return no_item(Item::End, at);
    }
    let items = Items {
        version: sheet[0],
        bytes: &sheet[HEADER..],
    };
    items.item(at)
}

// The name of the call that stands at a place, by its start and its length; the empty part where no well-framed call begins.
pub fn call_part(sheet: &[u8], at: Place) -> Part
    ensures { result ≡ name_part sheet.now at.0 }
{
    match item_at(sheet, at).item {
        Item::Call { name, .. } | Item::CallTemplate { name, .. } => name,
        _ => Part {
            start: Place(0),
            length: 0,
        },
    }
}

// A part of the sheet, lent on.
pub fn part_of(sheet: &[u8], part: Part) -> &[u8]
    requires { Within (length sheet.now) part }
    ensures { IsPart sheet.entry part result }
{
    let start = part.start;
    let from = start.0;
    let to = from + part.length;
    &sheet[from..to]
}

// The name of the call that stands at a place, as that part of the sheet; empty where no well-framed call begins.
pub fn call_name(sheet: &[u8], at: Place) -> &[u8]
    ensures { IsPart sheet.entry (name_part sheet.now at.0) result }
{
    let name = call_part(sheet, at);
    part_of(sheet, name)
}
