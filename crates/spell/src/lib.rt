// The spelling of a type of the table.
#![tactic(auto)]

ghost use Rattle.std.specs.Prelude.{◌≡◌, ◌+◌, ◌*◌, ◌≤◌, ◌<◌, get_or};
ghost use Rattle.table.specs.Table.{scalars, Sound};
ghost use Rattle.table.specs.Denote.{type_at};
ghost use Rattle.text.specs.Text.{decimal, far, Put};
ghost use Rattle.spell.specs.Spell.{spelling};
ghost use Rattle.spell.specs.Reply.{refuse_spelling, SpellDone};
ghost use Rattle.spell.specs.inner.Parts.{text_of, head_text, opening, last_of, closing, args_of, fract_text, fract_part, half, span};

use table::{Entry, Place, Reason, Refusal, TypeNo};

const TEXT_SPACES: usize = 17;

const TEXT_ACCESSES: usize = 23;

const TEXT_ABSTRACT: usize = 26;

// The texts that spellings are made of: by kind, the scalars and the heads; then the spaces, the accesses, and what a result type's
// name calls AbstractFloat. Any other is empty.
fn text_at(k: usize) -> &'static [u8]
    ensures { result.now ≡ text_of k }
{
    match k {
        0 => b"bool",
        1 => b"AbstractInt",
        2 => b"AbstractFloat",
        3 => b"i32",
        4 => b"u32",
        5 => b"f32",
        6 => b"f16",
        7 => b"vec",
        8 => b"mat",
        9 => b"array",
        10 => b"array",
        11 => b"atomic",
        12 => b"ptr",
        13 => b"ref",
        14 => b"__frexp_result_",
        15 => b"__modf_result_",
        16 => b"__atomic_compare_exchange_result",
        17 => b"function",
        18 => b"private",
        19 => b"workgroup",
        20 => b"uniform",
        21 => b"storage",
        22 => b"handle",
        23 => b"read",
        24 => b"write",
        25 => b"read_write",
        26 => b"abstract",
        _ => b"",
    }
}

// Text k from a place on.
// Apart: what it holds would else stand in the frame of each of a type's levels, of which there are up to 249.
#[inline(never)]
pub fn put_text(out: &mut [u8], at: usize, k: usize) -> usize
    requires { at < far * 2 }
    ensures { Put out.old at (text_of k) result out.new }
{
    text::put_text(out, at, text_at(k))
}

// A word of an entry in decimal.
fn put_dec(out: &mut [u8], at: usize, n: u32) -> usize
    requires { at + n < far * 2 }
    ensures { Put out.old at (decimal n) result out.new }
{
    text::put_number(out, at, cast::word(n))
}

// A head: its name, then a vector's width or a matrix's columns and rows.
fn put_head(out: &mut [u8], at: usize, e: Entry) -> usize
    requires { at < far + half }
    ensures { Put out.old at (head_text e) result out.new }
{
    let a = put_text(out, at, cast::word(e.kind));
    if e.kind == table::KIND_VEC {
        return put_dec(out, a, e.p);
    }
    if e.kind == table::KIND_MAT {
        let b = put_dec(out, a, e.p);
        let rows = text::put_byte(out, b, b'x');
        return put_dec(out, rows, e.q);
    }
    a
}

// What opens the arguments: `<`, and the space of a pointer or a reference.
fn put_opening(out: &mut [u8], at: usize, e: Entry) -> usize
    requires { at < far + half }
    ensures { Put out.old at (opening e) result out.new }
{
    let a = text::put_byte(out, at, b'<');
    if (e.kind == table::KIND_PTR) | (e.kind == table::KIND_REF) {
        let b = put_text(out, a, TEXT_SPACES + cast::word(e.p));
        return text::put_byte(out, b, b',');
    }
    a
}

// What stands after the elem: the count of an array, or the access of a pointer or a reference.
fn put_last(out: &mut [u8], at: usize, e: Entry) -> usize
    requires { at < far + half }
    ensures put { Put out.old at (last_of e) result out.new }
    ensures upper_bound { result < far * 2 }
{
    if e.kind == table::KIND_ARRAY {
        let count = text::put_byte(out, at, b',');
        return put_dec(out, count, e.p);
    }
    if (e.kind == table::KIND_PTR) | (e.kind == table::KIND_REF) {
        let access = text::put_byte(out, at, b',');
        return put_text(out, access, TEXT_ACCESSES + cast::word(e.q));
    }
    at
}

// What closes the arguments: what stands last, and `>`.
fn put_closing(out: &mut [u8], at: usize, e: Entry) -> usize
    requires { at < far + half }
    ensures { Put out.old at (closing e) result out.new }
{
    let end = put_last(out, at, e);
    text::put_byte(out, end, b'>')
}

// A scalar in the name of a result type.
fn put_fract_scalar(out: &mut [u8], at: usize, s: usize) -> usize
    requires { at < far * 2 }
    ensures { Put out.old at (fract_text s) result out.new }
{
    if s == table::ABSTRACT_FLOAT {
        return put_text(out, at, TEXT_ABSTRACT);
    }
    put_text(out, at, s)
}

// The end of a result type's name: the type of `fract`, which is entry e.
fn put_fract(out: &mut [u8], at: usize, e: Entry) -> usize
    requires { at < far + half }
    ensures { Put out.old at (fract_part e) result out.new }
{
    if e.kind == table::KIND_VEC {
        let a = put_head(out, at, e);
        let b = text::put_byte(out, a, b'_');
        return put_fract_scalar(out, b, cast::word(e.elem));
    }
    put_fract_scalar(out, at, cast::word(e.kind))
}

// A type: its head, then its arguments. A scalar and a result of frexp or modf have none: their names are whole.
#[cycle(spell_args_spell_type)]
pub fn spell_type(words: &[u32], n: usize, i: usize, out: &mut [u8], at: usize) -> usize
    requires sound { Sound words.now n }
    requires i_lt_n { i < n }
    requires span_bound { at + (i + 1) * span ≤ far }
    ensures put { Put out.old at (spelling (type_at words.now i)) result out.new }
    ensures upper_bound { result ≤ at + (i + 1) * span }
{
    let e = table::entry_at(words, i);
    let mid = put_head(out, at, e);
    if e.kind < table::KIND_VEC {
        return mid;
    }
    if (e.kind == table::KIND_FREXP) | (e.kind == table::KIND_MODF) {
        return put_fract(out, mid, table::entry_at(words, cast::word(e.elem)));
    }
    spell_args(words, n, i, out, mid)
}

// The arguments of a head: its elem, by the rule for types, between what opens and what closes them.
#[cycle(spell_args_spell_type)]
fn spell_args(words: &[u32], n: usize, i: usize, out: &mut [u8], at: usize) -> usize
    requires sound { Sound words.now n }
    requires scalars_le_i { (scalars ≤ i) × (i < n) }
    requires half_bound { at + i * span + half ≤ far }
    ensures put { Put out.old at (args_of words.now i) result out.new }
    ensures upper_bound { result ≤ at + i * span + half }
{
    let e = table::entry_at(words, i);
    let a = put_opening(out, at, e);
    let b = spell_type(words, n, cast::word(e.elem), out, a);
    put_closing(out, b, e)
}

// A refusal of a single call.
fn refused(reason: Reason, n: usize) -> Result<usize, Refusal>
    ensures { result ≡ refuse_spelling reason n }
{
    Err(Refusal {
        reason,
        place: Place(0),
        used: n,
    })
}

// Spells type t of a sound table into `out`: its length, or a refusal, and then nothing is written.
pub fn spell_in(words: &[u32], n: usize, t: TypeNo, out: &mut [u8]) -> Result<usize, Refusal>
    requires { Sound words.now n }
    ensures { SpellDone words.now n t out.old result out.new }
{
    let i = t.0;
    if n <= i {
        return refused(Reason::NoSuchType, n);
    }
    let none = 0;
    let len = spell_type(words, n, i, &mut out[..none], 0);
    if out.len() < len {
        return refused(Reason::TooLong, n);
    }
    Ok(spell_type(words, n, i, out, 0))
}

// For a host: spells type t of any table into `out`.
pub fn spell(words: &[u32], n: usize, t: TypeNo, out: &mut [u8]) -> Result<usize, Refusal>
    ensures { SpellDone words.now n t out.old result out.new }
{
    if !table::sound(words, n) {
        return refused(Reason::Unsound, n);
    }
    spell_in(words, n, t, out)
}
