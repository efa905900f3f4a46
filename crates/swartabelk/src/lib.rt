// What hosts in C and in Rust call: include/swartabelk.h declares it, and the static library `swartabelk_c` hands it out under the same names. Each function answers
// in a struct of numbers what the function below it answers in an enum, which C does not know.
#![tactic(auto)]

ghost use Rattle.std.specs.Prelude.{◌≡◌, false, ◌<◌, ◌^◌};
ghost use Rattle.frame.specs.Frame.{name_part};
ghost use Rattle.answer.specs.Answer.{marked_by};
ghost use Rattle.table.specs.Placing.{enter_type};
ghost use Rattle.table.specs.declared.Entry.{Entry};
ghost use Rattle.ops_ty.specs.Ops.{type_unary_op, type_binary_op, unary_runs, binary_runs};
ghost use Rattle.call_ty.specs.Calls.{type_builtin_fn, builtin_runs};
ghost use Rattle.tplt.specs.Templates.{template_outcome};
ghost use Rattle.sheet.specs.Machine.{type_sheet, sheet_runs};
ghost use Rattle.why.specs.Why.{unary_pieces, binary_pieces, call_pieces};
ghost use Rattle.swartabelk.specs.Reply.{mark_bit, reply_of, Replied, check_answer, spelled_of, SpelledOut, ToldOut, part_of};
ghost use Rattle.swartabelk.specs.inner.Code.{Fits, SpelledFits};

use frame::Part;
use table::{Answer, Entry, Place, Reason, Refusal, TypeNo, Typed};

// The type of a reply that has no value, or is a refusal.
// Stays: a number, here and in the replies below, since C has no Option: include/swartabelk.h names it (`SWARTABELK_NO_VALUE`).
pub const NO_VALUE: u32 = 0xFFFF_FFFF;

// A reply in numbers: the refusal, 0 for none; the type, or NO_VALUE; the mark of the value, 0 or RUNNING, so that the type with it is an operand; the place of a
// refusal; the used count; how many entries lack, with refusal 9.
#[repr(C)]
#[derive(Clone, Copy)]
pub struct Reply {
    pub refusal: u32,
    pub ty: u32,
    pub mark: u32,
    pub place: u32,
    pub used: u32,
    pub lacking: u32,
}

// The same of a spelling: its length stands where a type would.
#[repr(C)]
#[derive(Clone, Copy)]
pub struct SpelledReply {
    pub refusal: u32,
    pub length: u32,
    pub place: u32,
    pub used: u32,
}

// A part of the lent sheet.
#[repr(C)]
#[derive(Clone, Copy)]
pub struct NamePart {
    pub start: usize,
    pub length: usize,
}

impl From<Part> for NamePart {
    ghost from_gives = { λ p r. r ≡ part_of p };

    fn from(part: Part) -> NamePart {
        NamePart {
            start: part.start.0,
            length: part.length,
        }
    }
}

// A number that fits, as it is.
fn narrow(x: usize) -> u32
    requires { x < 2 ^ 32 }
    ensures { result ≡ x }
{
    x as u32
}

// A mark in numbers.
fn mark_bit(running: bool) -> u32
    ensures { result ≡ mark_bit running }
{
    if running { held::RUNNING } else { 0 }
}

// An answer in numbers, with the mark of its value.
// Stays: no `From`, here and below: one asks nothing of what it is given, and what does not fit into 32 bits has no reply, which `Fits` and `SpelledFits` rule out.
fn reply_of(typed: Typed) -> Reply
    requires { Fits typed.answer }
    ensures { result ≡ reply_of typed }
{
    let told = Reply {
        refusal: 0,
        ty: NO_VALUE,
        mark: mark_bit(typed.running),
        place: 0,
        used: 0,
        lacking: 0,
    };
    match typed.answer {
        Answer::Value(t, used) => Reply {
            ty: narrow(t.0),
            used: narrow(used),
            ..told
        },
        Answer::NoValue(n) => Reply {
            used: narrow(n),
            ..told
        },
        Answer::Refused(r) => Reply {
            refusal: cast::wide(u8::from(r.reason)),
            place: narrow(r.place.0),
            used: narrow(r.used),
            lacking: table::lacking_of(r.reason),
            ..told
        },
    }
}

// An answer without a mark in numbers.
fn const_reply(a: Answer) -> Reply
    requires { Fits a }
    ensures { result ≡ reply_of (marked_by false a) }
{
    reply_of(table::marked(a, false))
}

// A spelling's reply in numbers, over a table of n entries.
fn spelled_of(n: u32, s: Result<usize, Refusal>) -> SpelledReply
    requires { SpelledFits s }
    ensures { result ≡ spelled_of n s }
{
    match s {
        Ok(k) => SpelledReply {
            refusal: 0,
            length: narrow(k),
            place: 0,
            used: n,
        },
        Err(r) => SpelledReply {
            refusal: cast::wide(u8::from(r.reason)),
            length: 0,
            place: narrow(r.place.0),
            used: narrow(r.used),
        },
    }
}

// Whether the words hold a sound table of `used` entries: no value, or refusal 1.
pub fn swartabelk_check(words: &[u32], used: u32) -> Reply
    ensures { result ≡ reply_of (marked_by false (check_answer words.now used)) }
{
    let n = cast::word(used);
    if table::sound(words, n) {
        return const_reply(table::no_value(n));
    }
    const_reply(table::refused(Reason::Unsound, Place(0), n))
}

// The type of an entry, entered where it is absent.
pub fn swartabelk_enter(words: &mut [u32], used: u32, kind: u32, p: u32, q: u32, elem: u32) -> Reply
    ensures { Replied (enter_type words.old used (record { kind = kind; p = p; q = q; elem = elem })) false result words.new }
{
    let n = cast::word(used);
    let e = Entry { kind, p, q, elem };
    let answer = entering::enter_type(words, n, e);
    const_reply(answer)
}

// The type of a unary operator on the operand a: a type's number, with RUNNING where it is known only when running.
pub fn swartabelk_unary(words: &mut [u32], used: u32, op: u32, a: u32) -> Reply
    ensures { Replied (type_unary_op words.old used op a) (unary_runs a) result words.new }
{
    let n = cast::word(used);
    let o = cast::word(op);
    let typed = ops_ty::type_unary_op(words, n, o, a);
    reply_of(typed)
}

// The type of a binary operator on the operands a and b.
pub fn swartabelk_binary(words: &mut [u32], used: u32, op: u32, a: u32, b: u32) -> Reply
    ensures { Replied (type_binary_op words.old used op a b) (binary_runs a b) result words.new }
{
    let n = cast::word(used);
    let o = cast::word(op);
    let typed = ops_ty::type_binary_op(words, n, o, a, b);
    reply_of(typed)
}

// The type of a call of the builtin with that name in that profile, on those operands; the template list is empty where there is none.
pub fn swartabelk_call(
    words: &mut [u32],
    used: u32,
    profile: u32,
    name: &[u8],
    tplt: &[u32],
    args: &[u32],
) -> Reply
    ensures { Replied (type_builtin_fn profile words.old used name.now tplt.now args.now) (builtin_runs profile name.now args.now) result words.new }
{
    let n = cast::word(used);
    let typed = call_ty::type_builtin_fn(words, n, profile, name, tplt, args);
    reply_of(typed)
}

// The type of a template: a head, and its arguments as pairs of a tag and a value.
pub fn swartabelk_template(words: &mut [u32], used: u32, head: &[u8], args: &[i64]) -> Reply
    ensures { Replied (template_outcome words.old used head.now args.now) false result words.new }
{
    let n = cast::word(used);
    let answer = tplt::type_template(words, n, head, args);
    const_reply(answer)
}

// The type of a whole sheet, in that profile.
pub fn swartabelk_sheet(words: &mut [u32], used: u32, profile: u32, sheet: &[u8]) -> Reply
    ensures { Replied (type_sheet profile words.old used sheet.now) (sheet_runs profile words.old used sheet.now) result words.new }
{
    let n = cast::word(used);
    let typed = sheet::type_sheet(words, n, profile, sheet);
    reply_of(typed)
}

// The spelling of a type, into `out`.
pub fn swartabelk_spell(words: &[u32], used: u32, ty: u32, out: &mut [u8]) -> SpelledReply
    ensures { SpelledOut words.now used ty out.old result out.new }
{
    let n = cast::word(used);
    let t = TypeNo(cast::word(ty));
    let s = spell::spell(words, n, t, out);
    spelled_of(used, s)
}

// Why a unary operator on the operand a is accepted, or refused with 8, into `out`.
pub fn swartabelk_why_unary(
    words: &[u32],
    used: u32,
    op: u32,
    a: u32,
    out: &mut [u8],
) -> SpelledReply
    ensures { ToldOut used (type_unary_op words.now used op a).answer (unary_pieces words.now used op a) out.old result out.new }
{
    let n = cast::word(used);
    let o = cast::word(op);
    let s = why::why_unary(words, n, o, a, out);
    spelled_of(used, s)
}

// Why a binary operator on the operands a and b is accepted, or refused with 8, into `out`.
pub fn swartabelk_why_binary(
    words: &[u32],
    used: u32,
    op: u32,
    a: u32,
    b: u32,
    out: &mut [u8],
) -> SpelledReply
    ensures { ToldOut used (type_binary_op words.now used op a b).answer (binary_pieces words.now used op a b) out.old result out.new }
{
    let n = cast::word(used);
    let o = cast::word(op);
    let s = why::why_binary(words, n, o, a, b, out);
    spelled_of(used, s)
}

// Why a call of a builtin is accepted, or refused with 8, into `out`.
pub fn swartabelk_why_call(
    words: &[u32],
    used: u32,
    profile: u32,
    name: &[u8],
    tplt: &[u32],
    args: &[u32],
    out: &mut [u8],
) -> SpelledReply
    ensures { ToldOut used (type_builtin_fn profile words.now used name.now tplt.now args.now).answer (call_pieces profile words.now used name.now tplt.now args.now) out.old result out.new }
{
    let n = cast::word(used);
    let s = why::why_call(words, n, profile, name, tplt, args, out);
    spelled_of(used, s)
}

// The part of the sheet that is the name of the call at a place; the empty part where no well-framed call begins.
pub fn swartabelk_call_name(sheet: &[u8], place: usize) -> NamePart
    ensures { result ≡ part_of (name_part sheet.now place) }
{
    NamePart::from(frame::call_part(sheet, Place(place)))
}
