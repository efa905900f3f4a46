// Replays the answers of another WGSL compiler for the operators, and writes how many rows agreed.
// Standard input has a line for each of `!`, `-` and `~`, then for each binary operator a line for each left type. A line has a character for each of the
// 55 types, as the one operand or the right one: the character of the result's type, or `.` for a refusal. All operands are known early, and so is each result.
#![tactic(auto)]

use std::io;
use table::Typed;
use vectors::{Counts, TYPES, Types};

// The types of a line.
const COLUMNS: u32 = TYPES as u32;
// How many lines are of unary operators, and how many there are in all.
const UNARY: usize = 3;

const LINES: usize = 993;
// A line with its end.
const WIDTH: usize = 56;

// The answer for a line and a column of the input.
fn answered(types: &mut Types<256>, line: usize, column: u32) -> Typed {
    match line.checked_sub(UNARY) {
        None => ops_ty::type_unary_op(&mut types.words, types.used, line, column),
        Some(k) => {
            let left = (k % TYPES) as u32;
            ops_ty::type_binary_op(&mut types.words, types.used, k / TYPES, left, column)
        }
    }
}

// Whether the answer for a line and a column is the one of that character.
fn agrees(types: &mut Types<256>, line: usize, column: u32, c: u8) -> bool {
    let typed = answered(types, line, column);
    vectors::answer_char(&types.words, typed.answer) == c && !typed.running
}

// How many rows agree; of a short input those that it has.
fn replay(input: &[u8]) -> u64 {
    let mut types = Types::new();
    let mut counts = Counts::default();
    for (line, row) in (0..LINES).zip(input.chunks(WIDTH)) {
        for (column, c) in (0..COLUMNS).zip(row) {
            counts.count(agrees(&mut types, line, column, *c));
        }
    }
    counts.agreed
}

fn main(rt: HostRuntime) -> io::Result<()> {
    let mut buffer = stdio::large_buffer();
    let input = stdio::read_into(&mut rt.reader(), &mut buffer)?;
    let agreed = replay(input);
    println!(rt; "operators: {agreed} of 54615 agreed")
}
