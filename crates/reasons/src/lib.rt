// The text that tells why a call is accepted or refused with 8, piece by piece, put into a lent output. Parameters are operands' numbers; so are xs, those of the operands args.
#![tactic(auto)]

ghost use Rattle.std.specs.Prelude.{◌≡◌, true, false, [], ◌++◌, map, ◌+◌, ◌/◌, ◌<◌, ◌≤◌, length, get_or, position};
ghost use Rattle.conv.specs.Types.Ty.{scalar};
ghost use Rattle.held.specs.Held.{number_of, mark_of};
ghost use Rattle.text.specs.Text.{Put, far};
ghost use Rattle.table.specs.Table.{Sound};
ghost use Rattle.spell.specs.Spell.{spelling};
ghost use Rattle.overload.specs.Rows.{row_at, values};
ghost use Rattle.overload.specs.Rows.Ruling.{by_row};
ghost use Rattle.overload.specs.inner.Code.{code_of, operand};
ghost use Rattle.ruled.specs.Call.{operand_ty, operand_tys};
ghost use Rattle.call_ty.specs.Calls.{marks_of, numbers};
ghost use Rattle.call_ty.specs.inner.Codes.{Under};
ghost use Rattle.memory.specs.inner.Component.{Below};
ghost use Rattle.weigh.specs.Weigh.{first_by, first_miss, Shaped};
ghost use Rattle.phrase.specs.Phrase.{operand_at};
ghost use Rattle.reasons.specs.Reasons.{is_true, miss_line, dropped_line, chosen_line, wanted_line};
ghost use Rattle.reasons.specs.inner.Told.{ruling_of, types_of, Told, piece_room};

use cast::wide;

// The place of the first operand that is running.
fn first_running(args: &[u32]) -> Option<usize>
    ensures { result ≡ position mark_of args.now }
{
    args.iter().position(|v| held::running(*v))
}

// `operand 1 is f32`, of the operand v at place 0.
fn put_is(words: &[u32], n: usize, k: usize, v: u32, out: &mut [u8], at: usize) -> usize
    requires { Sound words.now n × (number_of v < n) × (k < 256) × (at < far / 2) }
    ensures put { Put out.old at (operand_at k ++ spelling (operand_ty words.now v)) result out.new }
    ensures upper_bound { result ≤ at + 20560 }
{
    let a = phrase::put_operand(out, at, k);
    spell::spell_type(words, n, held::number(v).0, out, a)
}

// The line of an overload that does not fit.
pub fn miss_line(
    words: &[u32],
    n: usize,
    args: &[u32],
    xs: &[u8],
    ps: &[u8],
    out: &mut [u8],
    at: usize,
) -> usize
    requires { Sound words.now n × Under n (numbers args.now) × (xs.now ≡ map code_of (types_of words.now args.now)) × Shaped ps.now × (length xs.now ≡ length ps.now) × (length ps.now ≤ 4) × (first_miss (map operand ps.now) (map operand xs.now) < length xs.now) × (at < far / 4) }
    ensures put { Put out.old at (miss_line (map operand ps.now) (types_of words.now args.now)) result out.new }
    ensures upper_bound { result ≤ at + piece_room }
{
    let k = weigh::first_miss(ps, xs).unwrap();
    let a = phrase::put_signature(out, at, ps);
    let b = text::put_text(out, a, b": ");
    let c = put_is(words, n, k, args[k], out, b);
    text::put_byte(out, c, b'\n')
}

// The line of a fitting overload that is dropped.
// Stays: where no parameter is abstract or no operand running, the place is how many there are, as `first_by` counts: the contract asks for neither.
pub fn dropped_line(args: &[u32], ps: &[u8], out: &mut [u8], at: usize) -> usize
    requires { Shaped ps.now × (length ps.now ≤ 4) × (length args.now ≤ 4) × (at < far / 4) }
    ensures put { Put out.old at (dropped_line (map operand ps.now) (marks_of args.now)) result out.new }
    ensures upper_bound { result ≤ at + piece_room }
{
    let a = phrase::put_signature(out, at, ps);
    let b = text::put_text(out, a, b": dropped, ");
    let c = phrase::put_operand(out, b, weigh::first_abstract(ps).unwrap_or(ps.len()));
    let d = text::put_text(out, c, b"abstract and ");
    let e = phrase::put_operand(out, d, first_running(args).unwrap_or(args.len()));
    let f = text::put_text(out, e, b"running");
    text::put_byte(out, f, b'\n')
}

// The line of the chosen overload.
pub fn chosen_line(ps: &[u8], xs: &[u8], out: &mut [u8], at: usize) -> usize
    requires { Shaped ps.now × (length xs.now ≡ length ps.now) × (length ps.now ≤ 4) × (at < far / 4) }
    ensures put { Put out.old at (chosen_line (map operand ps.now) (map operand xs.now)) result out.new }
    ensures upper_bound { result ≤ at + piece_room }
{
    let a = phrase::put_signature(out, at, ps);
    let b = text::put_text(out, a, b": chosen");
    let c = phrase::put_ranks(out, b, ps, xs);
    text::put_byte(out, c, b'\n')
}

// The line of the operand v at place k, which breaks a rule that is not listed.
pub fn wanted_line(
    words: &[u32],
    n: usize,
    k: usize,
    v: u32,
    wanted: &[u8],
    out: &mut [u8],
    at: usize,
) -> usize
    requires { Sound words.now n × (number_of v < n) × (k < 256) × (length wanted.now < 256) × (at < far / 4) }
    ensures put { Put out.old at (wanted_line k (operand_ty words.now v) wanted.now) result out.new }
    ensures upper_bound { result ≤ at + piece_room }
{
    let a = put_is(words, n, k, v, out, at);
    let b = text::put_text(out, a, b", wanted is ");
    let c = text::put_text(out, b, wanted);
    text::put_byte(out, c, b'\n')
}
