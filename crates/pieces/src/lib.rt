// The text that tells why a call is accepted or refused with 8, one piece at a time, put into a lent output: what stands first, then what each overload of the call's row has.
#![tactic(auto)]

ghost use Rattle.std.specs.Prelude.{◌≡◌, Bool, true, false, cond, leb, nat_lt, List, [], map, ◌+◌, ◌/◌, ◌<◌, ◌≤◌, length, get_or, take};
ghost use Rattle.conv.specs.Types.{Ty, abstract_ty};
ghost use Rattle.conv.specs.Rank.{both};
ghost use Rattle.overload.specs.Overload.{fits};
ghost use Rattle.overload.specs.Marks.{any_abstract};
ghost use Rattle.overload.specs.Rows.{row_at, overloads_of, operand_count};
ghost use Rattle.overload.specs.inner.Code.{code_of, operand};
ghost use Rattle.text.specs.Text.{Put, far};
ghost use Rattle.table.specs.Table.{Sound};
ghost use Rattle.call_ty.specs.Calls.{marks_of, numbers};
ghost use Rattle.call_ty.specs.inner.Codes.{Under};
ghost use Rattle.listing.specs.Listing.{overload_at};
ghost use Rattle.weigh.specs.Weigh.{first_by, first_miss, Shaped};
ghost use Rattle.choice.specs.inner.Chosen.{chosen_by};
ghost use Rattle.reasons.specs.Reasons.{miss_line, dropped_line, chosen_line, pieces};
ghost use Rattle.reasons.specs.inner.Told.{ruling_of, types_of, Told, piece_room};

use cast::wide;

// The most operands that a rule takes.
const MOST: usize = 4;

// The operands' numbers, in front of codes.
// Stays: `call_ty::load` gives nothing where an operand is a reference, which `Told`, all that `put_piece` requires, doesn't rule out.
fn load(words: &[u32], n: usize, args: &[u32], codes: &mut [u8])
    requires { Sound words.now n × Under n (numbers args.now) × (length args.now ≤ length codes.old) }
    ensures { take (length args.now) codes.new ≡ map code_of (types_of words.now args.now) }
{
    for (i, v) in args.iter().enumerate() {
        codes[i] = ruled::code_at(words, n, held::number(*v).0);
    }
}

// The line of the overload that is chosen, at the operands' numbers xs, of which some is running or none.
fn chosen_piece(row: usize, running: bool, xs: &[u8], out: &mut [u8], at: usize) -> usize
    requires { (length xs.now ≡ operand_count (row_at row)) × (first_by (chosen_by running (row_at row) (map operand xs.now)) (overloads_of (row_at row)) < length (overloads_of (row_at row))) × (at < far / 4) }
    ensures put { Put out.old at (chosen_line (overload_at (row_at row) (first_by (chosen_by running (row_at row) (map operand xs.now)) (overloads_of (row_at row)))).params (map operand xs.now)) result out.new }
    ensures upper_bound { result ≤ at + piece_room }
{
    let i = choice::chosen(row, running, xs).unwrap();
    let all = listing::params(row, i);
    reasons::chosen_line(&all[0..xs.len()], xs, out, at)
}

// The line of the overload at place j, which does not fit.
fn missed_piece(
    words: &[u32],
    n: usize,
    row: usize,
    args: &[u32],
    xs: &[u8],
    j: usize,
    out: &mut [u8],
    at: usize,
) -> usize
    requires { Sound words.now n × Under n (numbers args.now) × (xs.now ≡ map code_of (types_of words.now args.now)) × (length xs.now ≡ operand_count (row_at row)) × (j < length (overloads_of (row_at row))) × (first_miss (overload_at (row_at row) j).params (map operand xs.now) < length xs.now) × (at < far / 4) }
    ensures put { Put out.old at (miss_line (overload_at (row_at row) j).params (types_of words.now args.now)) result out.new }
    ensures upper_bound { result ≤ at + piece_room }
{
    let all = listing::params(row, j);
    reasons::miss_line(words, n, args, xs, &all[0..xs.len()], out, at)
}

// Whether each operand converts to its parameter.
fn all_convert(ps: &[u8], xs: &[u8]) -> bool
    requires { Shaped ps.now × (length xs.now ≡ length ps.now) }
    ensures { result ≡ leb (length xs.now) (first_miss (map operand ps.now) (map operand xs.now)) }
{
    weigh::first_miss(ps, xs).is_none()
}

// Whether a parameter is abstract.
fn has_abstract(ps: &[u8]) -> bool
    requires { Shaped ps.now }
    ensures { result ≡ nat_lt (first_by abstract_ty (map operand ps.now)) (length ps.now) }
{
    weigh::first_abstract(ps).is_some()
}

// The line of the overload at place j where it fits and is dropped; of any other overload nothing.
fn lost_piece(
    row: usize,
    running: bool,
    args: &[u32],
    xs: &[u8],
    j: usize,
    out: &mut [u8],
    at: usize,
) -> usize
    requires { (length xs.now ≡ operand_count (row_at row)) × (length args.now ≤ 4) × (j < length (overloads_of (row_at row))) × (at < far / 4) }
    ensures put { Put out.old at (cond (both (fits (overload_at (row_at row) j).params (map operand xs.now)) (both running (any_abstract (overload_at (row_at row) j).params))) (dropped_line (overload_at (row_at row) j).params (marks_of args.now)) []) result out.new }
    ensures upper_bound { result ≤ at + piece_room }
{
    let all = listing::params(row, j);
    let ps = &all[0..xs.len()];
    if !running || !all_convert(ps, xs) || !has_abstract(ps) {
        return at;
    }
    reasons::dropped_line(args, ps, out, at)
}

// Piece j of a call of a listed row.
fn row_piece(
    words: &[u32],
    n: usize,
    rule: u8,
    accepted: bool,
    args: &[u32],
    j: usize,
    out: &mut [u8],
    at: usize,
) -> usize
    requires { Told words.now n rule accepted args.now × (rule < 100) × (j < length (pieces accepted (ruling_of rule) (types_of words.now args.now) (marks_of args.now))) × (at < far / 4) }
    ensures put { Put out.old at (get_or (pieces accepted (ruling_of rule) (types_of words.now args.now) (marks_of args.now)) j []) result out.new }
    ensures upper_bound { result ≤ at + piece_room }
{
    let mut codes = [0u8; MOST];
    load(words, n, args, &mut codes);
    let xs = &codes[0..args.len()];
    let row = wide(rule);
    match (j, accepted) {
        (0, true) => chosen_piece(row, call_ty::any_running(args), xs, out, at),
        (0, false) => at,
        (_, true) => lost_piece(row, call_ty::any_running(args), args, xs, j - 1, out, at),
        (_, false) => missed_piece(words, n, row, args, xs, j - 1, out, at),
    }
}

// How many pieces a call has, by its rule's number.
pub fn count(rule: u8, accepted: bool) -> usize
    ensures { ((ts : List Ty) (ms : List Bool) → result ≡ length (pieces accepted (ruling_of rule) ts ms)) × (result ≤ 256) }
{
    if rule < names::RULE_BITCAST {
        listing::count(wide(rule)) + 1
    } else {
        usize::from(!accepted)
    }
}

// Piece j of a call, put into out from place at on; the place after it.
pub fn put_piece(
    words: &[u32],
    n: usize,
    rule: u8,
    accepted: bool,
    args: &[u32],
    j: usize,
    out: &mut [u8],
    at: usize,
) -> usize
    requires { Told words.now n rule accepted args.now × (j < length (pieces accepted (ruling_of rule) (types_of words.now args.now) (marks_of args.now))) × (at < far / 4) }
    ensures put { Put out.old at (get_or (pieces accepted (ruling_of rule) (types_of words.now args.now) (marks_of args.now)) j []) result out.new }
    ensures upper_bound { result ≤ at + piece_room }
{
    if rule < names::RULE_BITCAST {
        return row_piece(words, n, rule, accepted, args, j, out, at);
    }
    broken::broken_line(words, n, rule, args, out, at)
}
