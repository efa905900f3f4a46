// Which rule the bytes that are offered as a builtin's name have in a profile, and whether the result is running even where all operands are const.
#![tactic(auto)]

mod tables;

ghost use Rattle.std.specs.Prelude.{◌≡◌, false, ◌<◌, ◌≤◌, length};
ghost use Rattle.names.specs.Names.{count, name_at, rule_of};
ghost use Rattle.names.specs.inner.Table.{numbered, meant, name_table, ends_blank, Ordered, StandsAt, has_name, rule_at, replied};

use std::cmp::Ordering;
use tables::{COUNT, LINE_WIDTH, NAME_WIDTH, NAMES};

// The numbers of the crate rules and of the calls on memory. A number below the first is that of a row of overloads.
pub const RULE_BITCAST: u8 = 100;

pub const RULE_ARRAY_LENGTH: u8 = 101;

pub const RULE_BARRIER: u8 = 103;

pub const RULE_ATOMIC_LOAD: u8 = 104;

pub const RULE_ATOMIC_UPDATE: u8 = 105;

pub const RULE_ATOMIC_STORE: u8 = 106;

pub const RULE_ATOMIC_COMPARE: u8 = 107;

pub const RULE_UNIFORM_LOAD: u8 = 108;

// How many profiles there are.
pub const PROFILES: u32 = 2;

// What names are filled up with: it is below every letter and digit.
const BLANK: u8 = b' ';

// Where the number of a line's rule stands, its profile and its mark; and the mark of a result that is running.
const RULE_AT: usize = NAME_WIDTH;

const PROFILE_AT: usize = NAME_WIDTH + 1;

const MARK_AT: usize = NAME_WIDTH + 2;

const MARK_RUNNING: u8 = 1;

// The rule of a name: a row of overloads, a crate rule, or what a call on memory does.
#[derive(Clone, Copy, PartialEq, Eq, Debug)]
pub enum Rule {
    Row(u8),
    Bitcast,
    ArrayLength,
    Barrier,
    AtomicLoad,
    AtomicUpdate,
    AtomicStore,
    AtomicCompare,
    UniformLoad,
}

// By its number.
impl From<u8> for Rule {
    ghost from_gives = { λ number rule. meant rule ≡ numbered number };

    fn from(number: u8) -> Self {
        match number {
            RULE_BITCAST => Rule::Bitcast,
            RULE_ARRAY_LENGTH => Rule::ArrayLength,
            RULE_ATOMIC_LOAD => Rule::AtomicLoad,
            RULE_ATOMIC_UPDATE => Rule::AtomicUpdate,
            RULE_ATOMIC_STORE => Rule::AtomicStore,
            RULE_ATOMIC_COMPARE => Rule::AtomicCompare,
            RULE_UNIFORM_LOAD => Rule::UniformLoad,
            row if row < RULE_BITCAST => Rule::Row(row),
            _ => Rule::Barrier,
        }
    }
}

// The number of a name's rule, and whether its result is running even where all operands are const.
#[derive(Clone, Copy, PartialEq, Eq, Debug)]
pub struct NamedRule {
    // Stays: the number, since the key of what a run remembers is made of it (`memo::asked_row`). `Rule::from` reads it.
    pub rule: u8,
    pub running: bool,
}

// The names: made once where a run or a single call begins, and lent from there.
#[derive(Drop)]
pub struct Names {
    rows: [[u8; LINE_WIDTH]; COUNT],
    ghost stand: { rows ≡ name_table },
}

// Whether the last byte of a name is a blank.
fn ends_blank(name: &[u8]) -> bool
    ensures { result ≡ ends_blank name.now }
{
    match name.last() {
        Some(last) => *last == BLANK,
        None => false,
    }
}

impl Names {
    pub fn new() -> Self
        ensures { result.rows ≡ name_table }
    {
        Names { rows: NAMES }
    }

    // How a line's name stands to this one, by the first letter in which they differ. Where this one ends, the line's next letter decides.
    // Stays: letter by letter, and not by the library's `cmp` of slices, which looks at eight at a time first; with it a full sheet of calls took a fifth to a quarter more time.
    fn compared(&self, row: usize, name: &[u8]) -> Ordering
        requires { (row < count) × (length name.now ≤ 32) }
        ensures { Ordered result (name_at row) name.now }
    {
        let line = &self.rows[row];
        for (i, other) in name.iter().enumerate() {
            if line[i] != *other {
                return line[i].cmp(other);
            }
        }
        let end = name.len();
        if end < NAME_WIDTH {
            return line[end].cmp(&BLANK);
        }
        Ordering::Equal
    }

    // The row that has this name: what is left of the sorted rows is halved until it is there, or none is left.
    // Stays: that it halves is what the loop's measure says, at most eight looks into the rows, and the edit `one_by_one` is refused by that alone. The library's `binary_search_by` promises no such number.
    fn row_of(&self, name: &[u8]) -> Option<usize>
        requires { (length name.now ≤ 32) × (ends_blank name.now ≡ false) }
        ensures { StandsAt name.now result }
    {
        let mut low = 0;
        let mut high = COUNT;
        while low < high {
            let middle = (low + high) / 2;
            match self.compared(middle, name) {
                Ordering::Less => low = middle + 1,
                Ordering::Equal => return Some(middle),
                Ordering::Greater => high = middle,
            }
        }
        None
    }

    // The row that has the name with these bytes.
    pub fn find(&self, name: &[u8]) -> Option<usize>
        ensures { StandsAt name.now result }
    {
        if NAME_WIDTH < name.len() || ends_blank(name) {
            return None;
        }
        self.row_of(name)
    }

    // Whether a row has the name with these bytes: it need be no row at all.
    pub fn has_name(&self, row: usize, name: &[u8]) -> bool
        ensures { result ≡ has_name row name.now }
    {
        if COUNT <= row || NAME_WIDTH < name.len() || ends_blank(name) {
            return false;
        }
        match self.compared(row, name) {
            Ordering::Less => false,
            Ordering::Equal => true,
            Ordering::Greater => false,
        }
    }

    // The number of the rule that the name of a row has in a profile, and whether its result is running.
    pub fn rule_at(&self, profile: u32, row: usize) -> Option<NamedRule>
        ensures { result ≡ replied (rule_at profile row) }
    {
        let line = self.rows.get(row)?;
        if PROFILES <= profile || profile < cast::wide(line[PROFILE_AT]) {
            return None;
        }
        Some(NamedRule {
            rule: line[RULE_AT],
            running: line[MARK_AT] == MARK_RUNNING,
        })
    }

    // The same of the name with these bytes. For the crates above, which lend the names: a host calls nothing of this crate.
    pub fn rule_of(&self, profile: u32, name: &[u8]) -> Option<NamedRule>
        ensures { result ≡ replied (rule_of profile name.now) }
    {
        self.rule_at(profile, self.find(name)?)
    }
}
