// Replays answers on operands with marks, and writes how many rows agreed.
// The first character of a line of standard input says what it is:
// `#` a group, as `#2-* * 2 +` or `#+-   * subgroupAdd`: what it asks; the marks of three operands, a blank where there are fewer; the mark of a value that is
// given; a blank; and from there on a builtin's name, or the character of an operator's number. It asks for a builtin of both profiles (a blank), for one of
// profile 1 alone (`+`), for an operator of one operand (`1`) or of two (`2`). A mark says whether an operand or value is known early (`-`) or only when
// running (`*`);
// `*` a title, written with the counts since the title before;
// any other some rows of the group, as `.5034`: the answer's character, the types of the operands before the last, and each type that the last one has with
// that answer. Where there is no operand, one character stands there for nothing.
#![tactic(auto)]

ghost use Rattle.std.specs.Prelude.{◌≤◌};

use answer::Typed;
use std::io;
use table::TypeNo;
use vectors::{Counts, Rows, Types};

const GROUP: u8 = b'#';
// What a group asks, and where that, the marks and the name stand in its line.
const ADDED: u8 = b'+';

const UNARY: u8 = b'1';

const BINARY: u8 = b'2';

const KIND_AT: usize = 1;

const MARKS_AT: usize = 2;

const VALUE_AT: usize = 5;

const NAME_AT: usize = 7;

const BLANK: u8 = b' ';

const RUNNING: u8 = b'*';
// Two profiles, and one that is unknown.
const FEWER: u32 = 0;

const SUBGROUPS: u32 = 1;

const NO_PROFILE: u32 = 2;

// A character of a line, or a blank after its end.
fn char_at(line: &[u8], at: usize) -> u8 {
    line.get(at).copied().unwrap_or(BLANK)
}

// The line of a group.
#[derive(Clone, Copy)]
struct Group<'a>(&'a [u8]);

impl Group<'_> {
    // What the group asks.
    fn kind(self) -> u8 {
        char_at(self.0, KIND_AT)
    }

    // The number of its operator.
    fn op(self) -> usize {
        vectors::type_no(char_at(self.0, NAME_AT)) as usize
    }

    // How many operands its rows have.
    fn count(self) -> usize
        ensures { result ≤ 3 }
    {
        let marks = [MARKS_AT, MARKS_AT + 1, MARKS_AT + 2];
        marks
            .iter()
            .position(|at| char_at(self.0, *at) == BLANK)
            .unwrap_or(3)
    }

    // Where the types of the last operand begin in a row.
    fn last_at(self) -> usize {
        self.count().max(1)
    }

    // The operand of that place, of a type by its character.
    fn operand(self, i: usize, c: u8) -> u32
        requires { i ≤ 2 }
    {
        let t = vectors::type_no(c) as usize;
        held::value(TypeNo(t), char_at(self.0, MARKS_AT + i) == RUNNING)
    }

    // The three operands of the row that has its last one at a place; the later ones stand for nothing where there are fewer.
    fn operands(self, line: &[u8], at: usize) -> [u32; 3] {
        let last = char_at(line, at);
        let first = char_at(line, 1);
        match self.count() {
            3 => [
                self.operand(0, first),
                self.operand(1, char_at(line, 2)),
                self.operand(2, last),
            ],
            2 => [self.operand(0, first), self.operand(1, last), 0],
            _ => [self.operand(0, last), 0, 0],
        }
    }

    // Whether a value is known only when running, where the answer has one.
    fn is_running(self, c: u8) -> bool {
        vectors::FIRST <= c && char_at(self.0, VALUE_AT) == RUNNING
    }

    // The answer's character in profile 0: a name of profile 1 alone is unknown there.
    fn expected_in_fewer(self, c: u8) -> u8 {
        match self.kind() {
            ADDED => vectors::NO_NAME,
            _ => c,
        }
    }
}

// The table of the types, and the group.
#[derive(Drop)]
struct Marks<'a> {
    types: Types<256>,
    group: Group<'a>,
}

impl<'a> Marks<'a> {
    // The answer of a call of the group's builtin.
    fn called(&mut self, profile: u32, args: &[u32]) -> Typed {
        let Types { words, used } = &mut self.types;
        match self.group.0.get(NAME_AT..) {
            Some(name) => call_ty::type_builtin_fn(words, *used, profile, name, &[], args),
            None => answer::marked(answer::no_value(*used), false),
        }
    }

    // The answer of a row in a profile, which operators do not have.
    fn answered(&mut self, profile: u32, line: &[u8], at: usize) -> Typed {
        let group = self.group;
        let args = group.operands(line, at);
        let Types { words, used } = &mut self.types;
        match group.kind() {
            UNARY => ops_ty::type_unary_op(words, *used, group.op(), args[0]),
            BINARY => ops_ty::type_binary_op(words, *used, group.op(), args[0], args[1]),
            _ => self.called(profile, &args[..group.count()]),
        }
    }

    // Whether a row has an answer in a profile, with its mark.
    fn is_answer(&mut self, profile: u32, line: &[u8], at: usize, c: u8) -> bool {
        let typed = self.answered(profile, line, at);
        vectors::answer_char(&self.types.words, typed.answer) == c
            && typed.running == self.group.is_running(c)
    }

    // Whether a row agrees: in both profiles, and its name is unknown where the profile is.
    fn agrees(&mut self, line: &[u8], at: usize) -> bool {
        let c = char_at(line, 0);
        let subgroups = self.is_answer(SUBGROUPS, line, at, c);
        match self.group.kind() {
            UNARY | BINARY => subgroups,
            _ => {
                let in_fewer = self.group.expected_in_fewer(c);
                subgroups
                    && self.is_answer(FEWER, line, at, in_fewer)
                    && self.is_answer(NO_PROFILE, line, at, vectors::NO_NAME)
            }
        }
    }
}

impl<'a> Rows<'a> for Marks<'a> {
    fn line(&mut self, line: &'a [u8], counts: &mut Counts) {
        match line {
            [GROUP, ..] => self.group = Group(line),
            _ => {
                for at in self.group.last_at()..line.len() {
                    counts.count(self.agrees(line, at));
                }
            }
        }
    }
}

fn main(rt: HostRuntime) -> io::Result<()> {
    let mut buffer = stdio::large_buffer();
    let input = stdio::read_into(&mut rt.reader(), &mut buffer)?;
    let mut marks = Marks {
        types: Types::new(),
        group: Group(&[]),
    };
    vectors::replay(&rt, input, &mut marks)
}
