// Why a call is accepted or refused with 8, told into a lent output. The table is only read.
#![tactic(auto)]

ghost use Rattle.std.specs.Prelude.{◌≡◌, true, false, List, [], ◌∷◌, ℕ, ◌+◌, ◌*◌, ◌/◌, ◌<◌, ◌≤◌, length, get_or, eqb};
ghost use Rattle.names.specs.inner.Table.{numbered};
ghost use Rattle.overload.specs.Rows.Ruling.{by_row};
ghost use Rattle.text.specs.Text.{Put, far};
ghost use Rattle.answer.specs.Answer.{reason_no};
ghost use Rattle.answer.specs.declared.Answer.{Answer};
ghost use Rattle.spell.specs.Reply.{refuse_spelling};
ghost use Rattle.ops_ty.specs.Ops.{unary_ruling, binary_row, type_unary_op, type_binary_op};
ghost use Rattle.call_ty.specs.Calls.{type_builtin_fn};
ghost use Rattle.reasons.specs.Reasons.{together};
ghost use Rattle.reasons.specs.inner.Told.{ruling_of, piece_room};
ghost use Rattle.why.specs.Why.{by_answer, unary_pieces, binary_pieces, call_pieces, WhyDone};
ghost use Rattle.why.specs.inner.Asks.{has_ruling, Tells, asked_pieces, said, Asks, Written, Telling, text_room, Short};

use names::Names;
use table::{Answer, Place, Reason, Refusal};

// Unary `!` `-` `~` are rows 0 to 2 of the overloads; behind the rules that names have stand those of `&` and `*`.
const ADDRESS_OF: usize = 3;

const INDIRECTION: usize = 4;

const RULE_ADDRESS: u8 = 109;

const RULE_INDIRECTION: u8 = 110;

const BINARY_OPS: usize = 18;

// What the rule of a call said: that it accepts the call, or, if not, that it refuses it with 8.
#[derive(Clone, Copy)]
pub struct Verdict {
    pub rule: u8,
    pub accepted: bool,
}

// What there is to tell of a call: what its rule said, or nothing; or the call is refused with another number.
pub type Asked = Result<Option<Verdict>, Refusal>;

// What a rule said, where there is one.
fn said(rule: Option<u8>, accepted: bool) -> Option<Verdict>
    ensures { result ≡ said rule accepted }
{
    rule.map(|rule| Verdict { rule, accepted })
}

// Whether a reason is that no overload fits.
fn none_fits(reason: Reason) -> bool
    ensures { result ≡ eqb (reason_no reason) 8 }
{
    matches!(reason, Reason::NoOverload)
}

// By the answer of a call that has this rule; of one without, nothing is told.
fn told_by(a: Answer, rule: Option<u8>) -> Asked
    ensures { result ≡ by_answer a (Ok (said rule true)) (Ok (said rule false)) (λ r. Err r) }
{
    match a {
        Answer::Value(_, _) | Answer::NoValue(_) => Ok(said(rule, true)),
        Answer::Refused(r) => {
            if none_fits(r.reason) {
                Ok(said(rule, false))
            } else {
                Err(r)
            }
        }
    }
}

// The number of a unary operator's rule.
fn unary_rule(op: usize) -> u8
    ensures { op < 5 → ruling_of result ≡ unary_ruling op }
{
    match op {
        0 => 0,
        1 => 1,
        ADDRESS_OF => RULE_ADDRESS,
        INDIRECTION => RULE_INDIRECTION,
        _ => 2,
    }
}

// The number of a binary operator's rule.
fn binary_rule(op: usize) -> u8
    ensures { op < 18 → ruling_of result ≡ by_row (binary_row op) }
{
    if BINARY_OPS <= op {
        return 0;
    }
    ops_ty::row_byte(op)
}

// Whether a name's rule has overloads, or takes what another takes that has.
fn has_ruling(rule: u8) -> bool
    ensures { result ≡ has_ruling (numbered rule) }
{
    matches!(
        rule,
        0..names::RULE_BITCAST
            | names::RULE_ARRAY_LENGTH
            | names::RULE_ATOMIC_LOAD
            | names::RULE_ATOMIC_UPDATE
            | names::RULE_ATOMIC_STORE
            | names::RULE_ATOMIC_COMPARE
            | names::RULE_UNIFORM_LOAD
    )
}

// What there is to tell of a unary operator on the operand a.
pub fn ask_unary(words: &[u32], n: usize, op: usize, a: u32) -> Asked
    ensures { Asks words.now n (a ∷ []) (unary_pieces words.now n op a) (type_unary_op words.now n op a).answer result }
{
    let answer = trial::unary(words, n, op, a);
    told_by(answer, Some(unary_rule(op)))
}

// What there is to tell of a binary operator on the operands a and b.
pub fn ask_binary(words: &[u32], n: usize, op: usize, a: u32, b: u32) -> Asked
    ensures { Asks words.now n (a ∷ b ∷ []) (binary_pieces words.now n op a b) (type_binary_op words.now n op a b).answer result }
{
    let answer = trial::binary(words, n, op, a, b);
    told_by(answer, Some(binary_rule(op)))
}

// What there is to tell of a call of a builtin. Its names and its copy of the table are off the stack before the text is put.
#[inline(never)]
pub fn ask_call(
    words: &[u32],
    n: usize,
    profile: u32,
    name: &[u8],
    tplt: &[u32],
    args: &[u32],
) -> Asked
    ensures { Asks words.now n args.now (call_pieces profile words.now n name.now tplt.now args.now) (type_builtin_fn profile words.now n name.now tplt.now args.now).answer result }
{
    let answer = trial::builtin(words, n, profile, name, tplt, args);
    match Names::new().rule_of(profile, name) {
        Some(named) => told_by(answer, has_ruling(named.rule).then_some(named.rule)),
        None => told_by(answer, None),
    }
}

// How many pieces the text of a call has.
pub fn piece_count(asked: Asked) -> usize
    ensures by_index { (w args : List ℕ) → result ≡ length (asked_pieces w args asked) }
    ensures upper_bound { result ≤ 256 }
{
    match asked {
        Ok(Some(v)) => pieces::count(v.rule, v.accepted),
        Ok(None) => 0,
        Err(_) => 0,
    }
}

// Piece j of the text of a call on the operands args.
pub fn put_piece(
    words: &[u32],
    n: usize,
    asked: Asked,
    args: &[u32],
    j: usize,
    out: &mut [u8],
    at: usize,
) -> usize
    requires { Tells words.now n args.now asked × (j < length (asked_pieces words.now args.now asked)) × (at < far / 4) }
    ensures put { Put out.old at (get_or (asked_pieces words.now args.now asked) j []) result out.new }
    ensures upper_bound { result ≤ at + piece_room }
{
    match asked {
        Ok(Some(v)) => pieces::put_piece(words, n, v.rule, v.accepted, args, j, out, at),
        Ok(None) => at,
        Err(_) => at,
    }
}

// The whole text.
fn put_all(words: &[u32], n: usize, asked: Asked, args: &[u32], out: &mut [u8]) -> usize
    requires { Tells words.now n args.now asked }
    ensures put { Put out.old 0 (together (asked_pieces words.now args.now asked)) result out.new }
    ensures upper_bound { result ≤ text_room }
{
    let mut at = 0;
    for j in 0..piece_count(asked) {
        at = put_piece(words, n, asked, args, j, out, at);
    }
    at
}

// The text, or 12, and then nothing is written: a first run into no bytes gives the length.
fn put_fitting(
    words: &[u32],
    n: usize,
    asked: Asked,
    args: &[u32],
    out: &mut [u8],
) -> Result<usize, Refusal>
    requires { Tells words.now n args.now asked }
    ensures written { Written n (together (asked_pieces words.now args.now asked)) out.old result out.new }
    ensures short { Short result }
{
    let len = put_all(words, n, asked, args, &mut []);
    if out.len() < len {
        return Err(Refusal {
            reason: Reason::TooLong,
            place: Place(0),
            used: n,
        });
    }
    Ok(put_all(words, n, asked, args, out))
}

// What there is to tell of a call, told.
fn tell(
    words: &[u32],
    n: usize,
    asked: Asked,
    args: &[u32],
    out: &mut [u8],
) -> Result<usize, Refusal>
    requires { Tells words.now n args.now asked }
    ensures telling { Telling words.now n args.now asked out.old result out.new }
    ensures short { Short result }
{
    asked?;
    put_fitting(words, n, asked, args, out)
}

// For a host: why a unary operator is accepted or refused with 8, into `out`.
pub fn why_unary(
    words: &[u32],
    n: usize,
    op: usize,
    a: u32,
    out: &mut [u8],
) -> Result<usize, Refusal>
    ensures why_done { WhyDone n (type_unary_op words.now n op a).answer (unary_pieces words.now n op a) out.old result out.new }
    ensures short { Short result }
{
    let asked = ask_unary(words, n, op, a);
    let args = [a];
    tell(words, n, asked, &args, out)
}

// For a host: the same of a binary operator.
pub fn why_binary(
    words: &[u32],
    n: usize,
    op: usize,
    a: u32,
    b: u32,
    out: &mut [u8],
) -> Result<usize, Refusal>
    ensures why_done { WhyDone n (type_binary_op words.now n op a b).answer (binary_pieces words.now n op a b) out.old result out.new }
    ensures short { Short result }
{
    let asked = ask_binary(words, n, op, a, b);
    let args = [a, b];
    tell(words, n, asked, &args, out)
}

// For a host: the same of a call of a builtin.
pub fn why_call(
    words: &[u32],
    n: usize,
    profile: u32,
    name: &[u8],
    tplt: &[u32],
    args: &[u32],
    out: &mut [u8],
) -> Result<usize, Refusal>
    ensures why_done { WhyDone n (type_builtin_fn profile words.now n name.now tplt.now args.now).answer (call_pieces profile words.now n name.now tplt.now args.now) out.old result out.new }
    ensures short { Short result }
{
    let asked = ask_call(words, n, profile, name, tplt, args);
    tell(words, n, asked, args, out)
}
