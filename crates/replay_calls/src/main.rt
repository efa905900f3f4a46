// Replays answers for the builtins, and writes how many rows agreed. Every row is answered in both profiles, and agrees only where both answers are the one
// that it has. The first character of a line of standard input says what it is:
// `#` a group: the operand count of its calls and the builtin's name, as `#2 atan2`;
// `+` a single row: the answer's character, the operand count, four characters of operand types and the name, as `+5 3 555  fma`;
// `*` a title, written with the counts since the title before;
// any other a line of the group: an answer's character for each type as the last operand, or `-` where all were refused. The lines go through the types of the
// operands before the last one, the last of those fastest; calls of three operands have plain types only.
#![tactic(auto)]

use std::io;
use vectors::{Counts, Rows, Types};

// How many types there are, and how many are plain.
const TYPES: u32 = vectors::TYPES as u32;

const PLAINS: u32 = conv::PLAINS as u32;

const GROUP: u8 = b'#';

const SINGLE: u8 = b'+';

const ALL_REFUSED: u8 = b'-';
// The profiles, and a character that no row has.
const FEWER: u32 = 0;

const SUBGROUPS: u32 = 1;

const NOT_BOTH: u8 = b'/';

// The table of the types; and the group: its builtin's name, how many operands its calls have and which of its lines is next.
#[derive(Drop)]
struct Calls<'a> {
    types: Types<256>,
    name: &'a [u8],
    count: u8,
    index: u32,
}

// The character that a line of a group has in a column.
fn expected(line: &[u8], column: u32) -> Option<u8> {
    match line {
        [ALL_REFUSED, ..] => Some(vectors::REFUSED),
        _ => line.get(column as usize).copied(),
    }
}

// How many columns a line has where the calls have so many operands.
fn columns(count: u8) -> u32 {
    if count == 3 { PLAINS } else { TYPES }
}

impl<'a> Calls<'a> {
    // The table, and no group yet.
    fn new() -> Self {
        Calls {
            types: Types::new(),
            name: &[],
            count: 0,
            index: 0,
        }
    }

    // The character of the answer of a call in a profile, on operands that are known early.
    fn answered_in(&mut self, profile: u32, name: &[u8], args: &[u32]) -> u8 {
        let Types { words, used } = &mut self.types;
        let typed = call_ty::type_builtin_fn(words, *used, profile, name, &[], args);
        vectors::answer_char(words, typed.answer)
    }

    // The character of the answer of a call in both profiles, or one that no row has where the two differ.
    fn answered(&mut self, name: &[u8], args: &[u32]) -> u8 {
        let fewer = self.answered_in(FEWER, name, args);
        let subgroups = self.answered_in(SUBGROUPS, name, args);
        if fewer == subgroups { fewer } else { NOT_BOTH }
    }

    // The character of the answer at the next line of the group and a column of the line.
    fn group_answer(&mut self, column: u32) -> u8 {
        let index = self.index;
        match self.count {
            1 => self.answered(self.name, &[column]),
            2 => self.answered(self.name, &[index, column]),
            _ => self.answered(self.name, &[index / PLAINS, index % PLAINS, column]),
        }
    }

    // The rows of the group's next line.
    fn group_line(&mut self, line: &[u8], counts: &mut Counts) {
        for column in 0..columns(self.count) {
            let c = self.group_answer(column);
            counts.count(expected(line, column) == Some(c));
        }
        self.index = self.index.wrapping_add(1);
    }

    // Whether a single row agrees.
    fn single_agrees(&mut self, line: &[u8]) -> bool {
        let [_, answer, _, count, _, a, b, c, d, _, name @ ..] = line else {
            return false;
        };
        if name.is_empty() {
            return false;
        }
        let operands = [a, b, c, d].map(|o| vectors::type_no(*o));
        let n = match count {
            b'1' => 1,
            b'2' => 2,
            b'3' => 3,
            _ => 4,
        };
        self.answered(name, &operands[..n]) == *answer
    }
}

impl<'a> Rows<'a> for Calls<'a> {
    fn line(&mut self, line: &'a [u8], counts: &mut Counts) {
        match line {
            [GROUP, count, _, name @ ..] => {
                self.name = name;
                self.count = count.wrapping_sub(b'0');
                self.index = 0;
            }
            [GROUP, ..] => {}
            [SINGLE, ..] => counts.count(self.single_agrees(line)),
            _ => self.group_line(line, counts),
        }
    }
}

fn main(rt: HostRuntime) -> io::Result<()> {
    let mut buffer = stdio::large_buffer();
    let input = stdio::read_into(&mut rt.reader(), &mut buffer)?;
    vectors::replay(&rt, input, &mut Calls::new())
}
