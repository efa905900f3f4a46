// The chosen overload of a row at operands, by its place in the row's list: that one of the overloads left which is preferred to every other left. Operands are operands' numbers.
#![tactic(auto)]

ghost use Rattle.std.specs.Prelude.{◌≡◌, ◌≢◌, map, ◌<◌, length};
ghost use Rattle.conv.specs.Rank.{both};
ghost use Rattle.overload.specs.Overload.{fits};
ghost use Rattle.overload.specs.Rows.{row_at, overloads_of, operand_count};
ghost use Rattle.overload.specs.inner.Code.{operand, kept};
ghost use Rattle.listing.specs.Listing.{overload_at};
ghost use Rattle.weigh.specs.Weigh.{first_by, place_in, Shaped};
ghost use Rattle.choice.specs.inner.Chosen.{left_by, chosen_by, stands_back};

// Whether an overload, by its parameters, fits the operands and is left, where one of them is running or none.
fn is_left(running: bool, ps: &[u8], xs: &[u8]) -> bool
    requires { Shaped ps.now × (length xs.now ≡ length ps.now) }
    ensures { result ≡ both (fits (map operand ps.now) (map operand xs.now)) (left_by running (map operand ps.now)) }
{
    if weigh::first_miss(ps, xs).is_some() {
        return false;
    }
    !(running & weigh::first_abstract(ps).is_some())
}

// Whether the overload at place j does not keep that at place i, which has the parameters ps, from being chosen.
fn stands_back(row: usize, running: bool, xs: &[u8], i: usize, ps: &[u8], j: usize) -> bool
    requires { (length xs.now ≡ operand_count (row_at row)) × (i < length (overloads_of (row_at row))) × (j < length (overloads_of (row_at row))) × Shaped ps.now × (length ps.now ≡ length xs.now) × (map operand ps.now ≡ (overload_at (row_at row) i).params) }
    ensures { result ≡ stands_back running (map operand xs.now) (overload_at (row_at row) i) (overload_at (row_at row) j) }
{
    if i == j {
        return true;
    }
    let all = listing::params(row, j);
    let qs = &all[0..xs.len()];
    if !is_left(running, qs, xs) {
        return true;
    }
    weigh::beats(xs, ps, qs)
}

// Whether the overload at place i is chosen.
fn is_chosen(row: usize, running: bool, xs: &[u8], i: usize) -> bool
    requires { (length xs.now ≡ operand_count (row_at row)) × (i < length (overloads_of (row_at row))) }
    ensures { result ≡ chosen_by running (row_at row) (map operand xs.now) (overload_at (row_at row) i) }
{
    let all = listing::params(row, i);
    let ps = &all[0..xs.len()];
    if !is_left(running, ps, xs) {
        return false;
    }
    for j in 0..listing::count(row) {
        if !stands_back(row, running, xs, i, ps, j) {
            return false;
        }
    }
    true
}

// The place of the chosen overload of a row.
pub fn chosen(row: usize, running: bool, xs: &[u8]) -> Option<usize>
    requires { length xs.now ≡ operand_count (row_at row) }
    ensures { result ≡ place_in (length (overloads_of (row_at row))) (first_by (chosen_by running (row_at row) (map operand xs.now)) (overloads_of (row_at row))) }
{
    for i in 0..listing::count(row) {
        if is_chosen(row, running, xs, i) {
            return Some(i);
        }
    }
    None
}
