// The type table: entries of four words in a lent slice.
#![tactic(auto)]

ghost use Rattle.std.specs.Prelude.{◌≡◌, ℕ, ◌+◌, ◌*◌, ◌≤◌, ◌<◌, List, length, true, None};
ghost use Rattle.conv.specs.Types.{is_width, is_float, is_abstract, abstract_ty};
ghost use Rattle.table.specs.Table.{stride, scalars, ceiling, kind_ptr, entry_at, sameb, words_unused, stored, sized, row_ok, base_of, scalar_ok, made_ok, find_in, is_nothing, good_at, soundb, allowedb, Sound};
ghost use Rattle.table.specs.Denote.{type_at};
ghost use Rattle.table.specs.Tools.{all_below};
ghost use Rattle.table.specs.inner.Slots.{scalar_at, places, word_end, mixed, folded, entry_slot, turns_of, fork, Knows, Ended};

pub use answer::{
    Answer, Place, Reason, Refusal, TypeNo, Typed, accepted, lacking_of, marked, no_value, refused,
};

// How many words an entry has, and the most entries of a table.
pub const STRIDE: usize = 4;

pub const CEILING: usize = 256;

// How many slots the soundness test has, and how many places: these, and two for each entry.
const SLOTS: usize = 512;

const PLACES: usize = SLOTS + 2 * CEILING;

// How many numbers a word can be, how many of them one slot has, and two large odd numbers that spread bits.
const WORD_END: u64 = 4294967296;

const SLOT_WIDTH: u64 = 8388608;

const SPREAD: u64 = 2654435761;

const STIR: u64 = 1181783497;

// The scalars are the entries below this number, each by its own.
pub const SCALARS: usize = conv::SCALARS as usize;

pub const BOOL: usize = 0;

pub const ABSTRACT_INT: usize = 1;

pub const ABSTRACT_FLOAT: usize = 2;

pub const I32: usize = 3;

pub const U32: usize = 4;

pub const F32: usize = 5;

pub const F16: usize = 6;

// The kinds above the scalars.
// Stays: numbers, here and below, since a host writes the words of an entry in C (`swartabelk_kind`, `_space`, `_access` of include/swartabelk.h), any number there is, and `row_ok` of specs/Table.antt says which of them are wrong.
pub const KIND_VEC: u32 = 7;

pub const KIND_MAT: u32 = 8;

pub const KIND_ARRAY: u32 = 9;

pub const KIND_RUNTIME: u32 = 10;

pub const KIND_ATOMIC: u32 = 11;

pub const KIND_PTR: u32 = 12;

pub const KIND_REF: u32 = 13;

pub const KIND_FREXP: u32 = 14;

pub const KIND_MODF: u32 = 15;

pub const KIND_EXCHANGE: u32 = 16;

// Address spaces.
pub const SPACE_FUNCTION: u32 = 0;

pub const SPACE_PRIVATE: u32 = 1;

pub const SPACE_WORKGROUP: u32 = 2;

pub const SPACE_UNIFORM: u32 = 3;

pub const SPACE_STORAGE: u32 = 4;

pub const SPACE_HANDLE: u32 = 5;

// Access modes.
pub const ACCESS_READ: u32 = 0;

pub const ACCESS_WRITE: u32 = 1;

pub const ACCESS_READ_WRITE: u32 = 2;

// An entry of the table, by value.
#[derive(Clone, Copy, Debug, PartialEq, Eq)]
pub struct Entry {
    pub kind: u32,
    pub p: u32,
    pub q: u32,
    pub elem: u32,
}

// What entering gives: the number of the entry, and the used count afterwards.
#[derive(Clone, Copy, Debug, PartialEq, Eq)]
pub struct Entered {
    pub ty: TypeNo,
    pub used: usize,
}

// Where there is no room to enter: how many entries lack.
#[derive(Clone, Copy, Debug, PartialEq, Eq)]
pub struct Lacks(pub u32);

// Entry i. This and `entering::put_entry` are the only two that know how an entry lies in the words.
pub fn entry_at(words: &[u32], i: usize) -> Entry
    requires { (i + 1) * stride ≤ length words.now }
    ensures { result ≡ entry_at words.now i }
{
    let at = i * STRIDE;
    Entry {
        kind: words[at],
        p: words[at + 1],
        q: words[at + 2],
        elem: words[at + 3],
    }
}

// Two entries have one key, where they mostly differ in p.
// Stays: with the derived equality, `a.p == b.p && a == b`, the compiler makes one test of all four words, for which each entry is put together once more: `sound` took a tenth more instructions, and a quarter more time over 190 arrays.
fn alike(a: Entry, b: Entry) -> bool
    ensures { result ≡ sameb a b }
{
    a.p == b.p && a.elem == b.elem && (a.kind == b.kind) & (a.q == b.q)
}

fn is_width(x: u32) -> bool
    ensures { result ≡ is_width x }
{
    (2..=4).contains(&x)
}

fn is_float(s: usize) -> bool
    ensures { result ≡ is_float s }
{
    (s == ABSTRACT_FLOAT) | (s == F32) | (s == F16)
}

fn is_abstract(s: usize) -> bool
    ensures { result ≡ is_abstract s }
{
    (s == ABSTRACT_INT) | (s == ABSTRACT_FLOAT)
}

// p and q are unused.
fn words_unused(e: Entry) -> bool
    ensures { result ≡ words_unused e }
{
    (e.p == 0) & (e.q == 0)
}

// No kind of a pointer or a reference; and none of an array without count either.
fn is_stored(ek: u32) -> bool
    ensures { result ≡ stored ek }
{
    (ek != KIND_PTR) & (ek != KIND_REF)
}

fn is_sized(ek: u32) -> bool
    ensures { result ≡ sized ek }
{
    is_stored(ek) & (ek != KIND_RUNTIME)
}

// The rule of the entry's row, for the kinds that ask only for `ek`, the kind of elem.
fn flat_ok(e: Entry, ek: u32) -> bool
    requires { e.kind < kind_ptr }
    ensures { (eb : ℕ) → result ≡ row_ok e ek eb }
{
    let k = e.kind;
    let el = cast::word(e.elem);
    if k == KIND_VEC {
        return is_width(e.p) & (e.q == 0) & (el < SCALARS);
    }
    if k == KIND_MAT {
        return is_width(e.p) & is_width(e.q) & is_float(el);
    }
    if k == KIND_ARRAY {
        return (1 <= e.p) & (e.q == 0) & is_sized(ek);
    }
    if k == KIND_RUNTIME {
        return words_unused(e) & is_sized(ek);
    }
    if k == KIND_ATOMIC {
        return words_unused(e) & ((el == I32) | (el == U32));
    }
    false
}

// The same for the kinds from the pointers on, of which most ask for `eb` too, the innermost scalar of elem.
fn deep_ok(e: Entry, ek: u32, eb: usize) -> bool
    requires { kind_ptr ≤ e.kind }
    ensures { result ≡ row_ok e ek eb }
{
    let k = e.kind;
    let el = cast::word(e.elem);
    if k == KIND_PTR {
        return (e.p <= SPACE_STORAGE)
            & (e.q <= ACCESS_READ_WRITE)
            & is_stored(ek)
            & !is_abstract(eb);
    }
    if k == KIND_REF {
        return (e.p <= SPACE_HANDLE)
            & (e.q <= ACCESS_READ_WRITE)
            & is_stored(ek)
            & !is_abstract(eb);
    }
    if (k == KIND_FREXP) | (k == KIND_MODF) {
        return words_unused(e) & is_float(eb) & ((el < SCALARS) | (ek == KIND_VEC));
    }
    if k == KIND_EXCHANGE {
        return words_unused(e) & ((el == I32) | (el == U32));
    }
    false
}

// The innermost scalar of entry j.
fn base_of(words: &[u32], j: usize) -> usize
    requires { (j + 1) * stride ≤ length words.now }
    ensures { result ≡ base_of words.now j }
{
    let mut at = j;
    while SCALARS <= at {
        let e = entry_at(words, at);
        let next = cast::word(e.elem);
        if at <= next {
            return at;
        }
        at = next;
    }
    at
}

// Whether the type at t is abstract at any depth.
pub fn abstract_at(words: &[u32], n: usize, t: usize) -> bool
    requires { Sound words.now n × (t < n) }
    ensures { result ≡ abstract_ty (type_at words.now t) }
{
    is_abstract(base_of(words, t))
}

// An entry that is scalar k.
fn scalar_ok(k: usize, e: Entry) -> bool
    ensures { result ≡ scalar_ok k e }
{
    (cast::word(e.kind) == k) & (e.p == 0) & (e.q == 0) & (e.elem == 0)
}

// An entry above the scalars, standing at number i, where `base` gives the innermost scalar of an entry before it.
fn made_ok<F: FnOnce(usize) -> usize>(words: &[u32], i: usize, e: Entry, base: F) -> bool
    requires room { i * stride ≤ length words.now }
    requires before { (j : ℕ) → j < i → F.pre base j }
    requires base { (j r : ℕ) → j < i → F.post base j r → r ≡ base_of words.now j }
    ensures { result ≡ made_ok words.now i e }
{
    let el = cast::word(e.elem);
    if i <= el {
        return false;
    }
    let f = entry_at(words, el);
    if e.kind < KIND_PTR {
        return flat_ok(e, f.kind);
    }
    deep_ok(e, f.kind, base(el))
}

// The number of the first of the first n entries that has e's key.
pub fn find(words: &[u32], n: usize, e: Entry) -> Option<TypeNo>
    requires { n * stride ≤ length words.now }
    ensures { result ≡ find_in words.now n e }
{
    for i in 0..n {
        if entry_at(words, i) == e {
            return Some(TypeNo(i));
        }
    }
    None
}

// Whether entries 0 to 6 are the scalars.
fn scalars_stand(words: &[u32]) -> bool
    requires { scalars * stride ≤ length words.now }
    ensures { result ≡ all_below (scalar_at words.now) scalars }
{
    for i in 0..SCALARS {
        if !scalar_ok(i, entry_at(words, i)) {
            return false;
        }
    }
    true
}

// The words of an entry, mixed into one.
fn mixed_of(e: Entry) -> u64
    ensures { (result ≡ mixed e) × (result < word_end) }
{
    let rest = (cast::word64(e.elem) * 64 + cast::word64(e.kind) * 4 + cast::word64(e.q))
        % WORD_END;
    (cast::word64(e.p) + rest * SPREAD) % WORD_END
}

// Both halves of the square of a word.
fn folded_of(x: u64) -> u64
    requires { x < word_end }
    ensures { (result ≡ folded x) × (result < 2 * word_end) }
{
    x * x / WORD_END + x * x % WORD_END
}

// The slot of an entry: equal entries have one slot.
fn slot_of(e: Entry) -> usize
    ensures { result ≡ entry_slot e }
{
    (folded_of(mixed_of(e)) * STIR % WORD_END / SLOT_WIDTH) as usize
}

// The turns of an entry's way: equal entries have one way.
fn turns_of(e: Entry) -> u64
    ensures { result ≡ turns_of e }
{
    cast::word64(e.p) + cast::word64(e.elem) * WORD_END
}

// The place behind entry k.
fn fork_of(k: usize, turns: u64) -> usize
    requires { k < ceiling }
    ensures { result ≡ fork k turns }
{
    SLOTS + 2 * k + (turns % 2) as usize
}

// What the soundness test notes of the entries that it has passed: at each place the number of the entry there, or 0, and of each entry its innermost scalar.
#[derive(Drop)]
struct Passed {
    links: [u8; PLACES],
    bases: [u8; CEILING],
}

impl Passed {
    // The scalars alone, each of which is its own innermost scalar.
    fn scalars() -> Passed
        ensures { (w : List ℕ) → Knows w scalars result.links result.bases }
    {
        let mut bases = [0; CEILING];
        for k in 0..SCALARS {
            bases[k] = k as u8;
        }
        Passed {
            links: [0; PLACES],
            bases,
        }
    }

    // The free place on e's way, if no entry with e's key stands on it.
    fn free_place(&self, words: &[u32], i: usize, e: Entry) -> Option<usize>
        requires { (i * stride ≤ length words.now) × (scalars ≤ i) × (i ≤ ceiling) × (find_in words.now scalars e ≡ None) × Knows words.now i self.now.links self.now.bases }
        ensures { Ended words.now i self.now.links e result }
    {
        let mut place = slot_of(e);
        let mut turns = turns_of(e);
        let mut at = cast::wide(self.links[place]);
        while 0 < at {
            if alike(entry_at(words, at), e) {
                return None;
            }
            place = fork_of(at, turns);
            turns = turns / 2;
            at = cast::wide(self.links[place]);
        }
        Some(place)
    }

    // Whether entry i is good; then it stands on its way, and its innermost scalar is known.
    fn good_next(&mut self, words: &[u32], i: usize) -> bool
        requires { ((i + 1) * stride ≤ length words.now) × (scalars ≤ i) × (i < ceiling) × (all_below (scalar_at words.now) scalars ≡ true) × Knows words.now i self.old.links self.old.bases }
        ensures good { result ≡ good_at words.now i }
        ensures passed { result ≡ true → Knows words.now (i + 1) self.new.links self.new.bases }
    {
        let e = entry_at(words, i);
        if !made_ok(words, i, e, |j| cast::wide(self.bases[j])) {
            return false;
        }
        let Some(place) = self.free_place(words, i, e) else {
            return false;
        };
        self.links[place] = i as u8;
        self.bases[i] = self.bases[cast::word(e.elem)];
        true
    }
}

// Whether the first n entries are good, where the scalars stand.
fn rest_good(words: &[u32], n: usize) -> bool
    requires { (n * stride ≤ length words.now) × (scalars ≤ n) × (n ≤ ceiling) × (all_below (scalar_at words.now) scalars ≡ true) }
    ensures { result ≡ all_below (good_at words.now) n }
{
    let mut passed = Passed::scalars();
    for i in SCALARS..n {
        if !passed.good_next(words, i) {
            return false;
        }
    }
    true
}

// Whether the words hold a sound table of n entries.
pub fn sound(words: &[u32], n: usize) -> bool
    ensures { result ≡ soundb words.now n }
{
    if n < SCALARS {
        return false;
    }
    if CEILING < n {
        return false;
    }
    if words.len() < n * STRIDE {
        return false;
    }
    if !scalars_stand(words) {
        return false;
    }
    if n == SCALARS {
        return true;
    }
    rest_good(words, n)
}

// Whether e may be taken into a table of n entries.
pub fn allowed(words: &[u32], n: usize, e: Entry) -> bool
    requires { Sound words.now n }
    ensures { result ≡ allowedb words.now n e }
{
    let k = cast::word(e.kind);
    if k < SCALARS {
        return scalar_ok(k, e);
    }
    made_ok(words, n, e, |j| base_of(words, j))
}
