// Replays answers for the calls on memory, and writes how many rows agreed. Every row is asked in both profiles and in one that is unknown, and in each with
// its pointers known early and known only when running: no mark of a pointer changes an answer.
// The first character of a line of standard input says what it is:
// `+` an entry of the table after the 55 types, as `+;003`: a character for each of its words kind, p, q and elem;
// `#` a group, with the name of its builtin, as `#atomicAdd`;
// `*` a title, written with the counts since the title before;
// any other a row of the group, as `3<22g-0003*`: the answer's character, and five for each operand. These are the words of a pointer's or reference's entry, which is
// entered for the row alone, or `000` and the character of another type; then the mark, `*` where that other type's value is known only when running.
// Type i and word i have the character '0' + i. A compare's result that the call enters is `}` over i32 and `~` over u32. Every value is known only when running.
#![tactic(auto)]

use std::io;
use table::{Answer, Entry, TypeNo};
use vectors::{Counts, FIRST, OTHER, Rows, Types};

const ENTRY: u8 = b'+';

const GROUP: u8 = b'#';

const RUNNING: u8 = b'*';
// How many characters an operand has, its mark the last, and the most operands of a row.
const WIDTH: usize = 5;

const MOST: usize = 4;
// The characters of a compare's results, which no number of a type has here.
const EXCHANGE_I32: u8 = b'}';

const EXCHANGE_U32: u8 = b'~';

const I32: u32 = table::I32 as u32;

const U32: u32 = table::U32 as u32;
// A number that no type has.
const NO_TYPE: u32 = 255;
// Two profiles, and one that is unknown.
const FEWER: u32 = 0;

const SUBGROUPS: u32 = 1;

const NO_PROFILE: u32 = 2;

// The entry of those characters.
fn entry_of(chars: [u8; 4]) -> Entry {
    let [kind, p, q, elem] = chars.map(|c| vectors::type_no(c));
    Entry { kind, p, q, elem }
}

// An operand of that type, with a mark.
fn marked(t: usize, running: bool) -> u32 {
    if t < table::CEILING {
        held::value(TypeNo(t), running)
    } else {
        NO_TYPE
    }
}

// The character of the entry after so many types, where it is a compare's result.
fn new_char(words: &[u32], n: usize) -> u8 {
    if table::CEILING <= n || words.len() < (n + 1) * table::STRIDE {
        return OTHER;
    }
    match table::entry_at(words, n) {
        Entry {
            kind: table::KIND_EXCHANGE,
            p: 0,
            q: 0,
            elem: I32,
        } => EXCHANGE_I32,
        Entry {
            kind: table::KIND_EXCHANGE,
            p: 0,
            q: 0,
            elem: U32,
        } => EXCHANGE_U32,
        _ => OTHER,
    }
}

// The table of the types, and the name of the group's builtin.
#[derive(Drop)]
struct Memory<'a> {
    types: Types<512>,
    name: &'a [u8],
}

impl<'a> Memory<'a> {
    // An operand of a type that is entered after so many, with a mark, and the used count afterwards; of no type where it cannot be.
    fn entered(&mut self, used: usize, e: Entry, running: bool) -> (u32, usize) {
        match entering::enter_type(&mut self.types.words, used, e) {
            Answer::Value(TypeNo(t), n) => (marked(t, running), n),
            _ => (marked(NO_TYPE as usize, running), used),
        }
    }

    // The operand of those characters, and the used count after its type was entered; `running` is the mark of a pointer.
    fn operand(&mut self, used: usize, chars: [u8; WIDTH], running: bool) -> (u32, usize) {
        let [kind, p, q, elem, mark] = chars;
        let e = entry_of([kind, p, q, elem]);
        if e.kind == 0 {
            (marked(e.elem as usize, mark == RUNNING), used)
        } else {
            self.entered(used, e, running)
        }
    }

    // Whether the answer of a call on a table of n types has a character, and a running value where that is a type's.
    fn is_answer(&mut self, n: usize, profile: u32, args: &[u32], c: u8) -> bool {
        if vectors::MOST_TYPES < n {
            return false;
        }
        let words = &mut self.types.words;
        let typed = call_ty::type_builtin_fn(words, n, profile, self.name, &[], args);
        vectors::char_of(n, new_char(words, n), typed.answer) == c && typed.running == (FIRST <= c)
    }

    // Whether a row agrees in a profile, where its pointers have a mark and its answer that character.
    fn agrees_in(&mut self, profile: u32, operands: &[u8], running: bool, c: u8) -> bool {
        let count = (1 + operands.len()) / WIDTH;
        if MOST < count {
            return false;
        }
        let mut args = [NO_TYPE; MOST];
        let mut used = self.types.used;
        let (chars, _) = operands.as_chunks::<WIDTH>();
        for (arg, operand) in args.iter_mut().zip(chars) {
            (*arg, used) = self.operand(used, *operand, running);
        }
        self.is_answer(used, profile, &args[..count], c)
    }

    // Whether a row agrees, where its pointers have a mark: in both profiles, and its name is unknown where the profile is.
    fn agrees(&mut self, operands: &[u8], running: bool, c: u8) -> bool {
        self.agrees_in(FEWER, operands, running, c)
            && self.agrees_in(SUBGROUPS, operands, running, c)
            && self.agrees_in(NO_PROFILE, operands, running, vectors::NO_NAME)
    }
}

impl<'a> Rows<'a> for Memory<'a> {
    fn line(&mut self, line: &'a [u8], counts: &mut Counts) {
        match line {
            [ENTRY, kind, p, q, elem, ..] => {
                let Types { words, used } = &mut self.types;
                let e = entry_of([*kind, *p, *q, *elem]);
                *used = answer::used_of(entering::enter_type(words, *used, e));
            }
            [GROUP, name @ ..] => self.name = name,
            [] | [ENTRY, ..] => {}
            [c, operands @ ..] => {
                counts.count(self.agrees(operands, false, *c) && self.agrees(operands, true, *c))
            }
        }
    }
}

fn main(rt: HostRuntime) -> io::Result<()> {
    let mut buffer = stdio::large_buffer();
    let input = stdio::read_into(&mut rt.reader(), &mut buffer)?;
    let mut memory = Memory {
        types: Types::new(),
        name: &[],
    };
    vectors::replay(&rt, input, &mut memory)
}
