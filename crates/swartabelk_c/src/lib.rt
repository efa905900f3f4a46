// What C calls, under the names that include/swartabelk.h declares: each function is the one of the library `swartabelk` with its name, and promises what that does.
// Stays: a twin of each function of `swartabelk`: C's names are fixed, and a crate is a library, which Rust calls, or a static library, which C does.
#![tactic(auto)]

ghost use Rattle.std.specs.Prelude.{◌≡◌, false};
ghost use Rattle.frame.specs.Frame.{name_part};
ghost use Rattle.answer.specs.Answer.{marked_by};
ghost use Rattle.table.specs.Placing.{enter_type};
ghost use Rattle.ops_ty.specs.Ops.{type_unary_op, type_binary_op, unary_runs, binary_runs};
ghost use Rattle.call_ty.specs.Calls.{type_builtin_fn, builtin_runs};
ghost use Rattle.tplt.specs.Templates.{template_outcome};
ghost use Rattle.sheet.specs.Machine.{type_sheet, sheet_runs};
ghost use Rattle.why.specs.Why.{unary_pieces, binary_pieces, call_pieces};
ghost use Rattle.swartabelk.specs.Reply.{reply_of, Replied, check_answer, SpelledOut, ToldOut, part_of};

use swartabelk::{NamePart, Reply, SpelledReply};

// Whether the words hold a sound table of `used` entries: no value, or refusal 1.
#[unsafe(no_mangle)]
pub extern "C" fn swartabelk_check(words: &[u32], used: u32) -> Reply
    ensures { result ≡ reply_of (marked_by false (check_answer words.now used)) }
{
    swartabelk::swartabelk_check(words, used)
}

// The type of an entry, entered where it is absent.
#[unsafe(no_mangle)]
pub extern "C" fn swartabelk_enter(
    words: &mut [u32],
    used: u32,
    kind: u32,
    p: u32,
    q: u32,
    elem: u32,
) -> Reply
    ensures { Replied (enter_type words.old used (record { kind = kind; p = p; q = q; elem = elem })) false result words.new }
{
    swartabelk::swartabelk_enter(words, used, kind, p, q, elem)
}

// The type of a unary operator on the operand a: a type's number, with RUNNING where it is known only when running.
#[unsafe(no_mangle)]
pub extern "C" fn swartabelk_unary(words: &mut [u32], used: u32, op: u32, a: u32) -> Reply
    ensures { Replied (type_unary_op words.old used op a) (unary_runs a) result words.new }
{
    swartabelk::swartabelk_unary(words, used, op, a)
}

// The type of a binary operator on the operands a and b.
#[unsafe(no_mangle)]
pub extern "C" fn swartabelk_binary(words: &mut [u32], used: u32, op: u32, a: u32, b: u32) -> Reply
    ensures { Replied (type_binary_op words.old used op a b) (binary_runs a b) result words.new }
{
    swartabelk::swartabelk_binary(words, used, op, a, b)
}

// The type of a call of the builtin with that name in that profile, on those operands; the template list is empty where there is none.
#[unsafe(no_mangle)]
pub extern "C" fn swartabelk_call(
    words: &mut [u32],
    used: u32,
    profile: u32,
    name: &[u8],
    tplt: &[u32],
    args: &[u32],
) -> Reply
    ensures { Replied (type_builtin_fn profile words.old used name.now tplt.now args.now) (builtin_runs profile name.now args.now) result words.new }
{
    swartabelk::swartabelk_call(words, used, profile, name, tplt, args)
}

// The type of a template: a head, and its arguments as pairs of a tag and a value.
#[unsafe(no_mangle)]
pub extern "C" fn swartabelk_template(
    words: &mut [u32],
    used: u32,
    head: &[u8],
    args: &[i64],
) -> Reply
    ensures { Replied (template_outcome words.old used head.now args.now) false result words.new }
{
    swartabelk::swartabelk_template(words, used, head, args)
}

// The type of a whole sheet, in that profile.
#[unsafe(no_mangle)]
pub extern "C" fn swartabelk_sheet(
    words: &mut [u32],
    used: u32,
    profile: u32,
    sheet: &[u8],
) -> Reply
    ensures { Replied (type_sheet profile words.old used sheet.now) (sheet_runs profile words.old used sheet.now) result words.new }
{
    swartabelk::swartabelk_sheet(words, used, profile, sheet)
}

// The spelling of a type, into `out`.
#[unsafe(no_mangle)]
pub extern "C" fn swartabelk_spell(
    words: &[u32],
    used: u32,
    ty: u32,
    out: &mut [u8],
) -> SpelledReply
    ensures { SpelledOut words.now used ty out.old result out.new }
{
    swartabelk::swartabelk_spell(words, used, ty, out)
}

// Why a unary operator on the operand a is accepted, or refused with 8, into `out`.
#[unsafe(no_mangle)]
pub extern "C" fn swartabelk_why_unary(
    words: &[u32],
    used: u32,
    op: u32,
    a: u32,
    out: &mut [u8],
) -> SpelledReply
    ensures { ToldOut used (type_unary_op words.now used op a).answer (unary_pieces words.now used op a) out.old result out.new }
{
    swartabelk::swartabelk_why_unary(words, used, op, a, out)
}

// Why a binary operator on the operands a and b is accepted, or refused with 8, into `out`.
#[unsafe(no_mangle)]
pub extern "C" fn swartabelk_why_binary(
    words: &[u32],
    used: u32,
    op: u32,
    a: u32,
    b: u32,
    out: &mut [u8],
) -> SpelledReply
    ensures { ToldOut used (type_binary_op words.now used op a b).answer (binary_pieces words.now used op a b) out.old result out.new }
{
    swartabelk::swartabelk_why_binary(words, used, op, a, b, out)
}

// Why a call of a builtin is accepted, or refused with 8, into `out`.
#[unsafe(no_mangle)]
pub extern "C" fn swartabelk_why_call(
    words: &[u32],
    used: u32,
    profile: u32,
    name: &[u8],
    tplt: &[u32],
    args: &[u32],
    out: &mut [u8],
) -> SpelledReply
    ensures { ToldOut used (type_builtin_fn profile words.now used name.now tplt.now args.now).answer (call_pieces profile words.now used name.now tplt.now args.now) out.old result out.new }
{
    swartabelk::swartabelk_why_call(words, used, profile, name, tplt, args, out)
}

// The part of the sheet that is the name of the call at a place; the empty part where no well-framed call begins.
#[unsafe(no_mangle)]
pub extern "C" fn swartabelk_call_name(sheet: &[u8], place: usize) -> NamePart
    ensures { result ≡ part_of (name_part sheet.now place) }
{
    swartabelk::swartabelk_call_name(sheet, place)
}
