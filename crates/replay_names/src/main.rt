// Replays names from standard input, a line each: three digits of the rule, a mark and the name, as `012 acos` or `047+subgroupAdd`; or `-` and
// bytes that are no name, as `-aos`. The mark is `*` where the result is running on const operands too, `+` where it is so and profile 1 adds the name, else a blank.
// Each name is asked for in profile 0, in profile 1 and in two unknown ones, which have no name.
// A line that begins with `#` ends a group: it is written with the group's counts.
#![tactic(auto)]

use names::{NamedRule, Names};
use std::io;
use vectors::Lines;

const GROUP: u8 = b'#';

const NO_RULE: u8 = b'-';

const CONST: u8 = b' ';

const ADDED: u8 = b'+';

const ZERO: u8 = b'0';
// Two profiles, the first one that is unknown, and the last.
const FEWER: u32 = 0;

const SUBGROUPS: u32 = 1;

const NO_PROFILE: u32 = 2;

const LAST_PROFILE: u32 = u32::MAX;

// Whether the reply to a name that has a rule is right, or to bytes that are no name, or wrong to either.
#[derive(Clone, Copy, PartialEq, Eq)]
enum Verdict {
    Known,
    Unknown,
    Wrong,
}

// How many lines of a group had which verdict.
#[derive(Clone, Copy, Default)]
struct Tally {
    known: u64,
    unknown: u64,
    wrong: u64,
}

impl Tally {
    fn count(&mut self, verdict: Verdict) {
        self.known = vectors::counted(self.known, verdict == Verdict::Known);
        self.unknown = vectors::counted(self.unknown, verdict == Verdict::Unknown);
        self.wrong = vectors::counted(self.wrong, verdict == Verdict::Wrong);
    }

    // A group's line, with its counts.
    fn write(self, rt: &impl Print, line: &[u8]) -> io::Result<()> {
        let Tally {
            known,
            unknown,
            wrong,
        } = self;
        rt.write_all(line)?;
        println!(rt; "{known} known, {unknown} unknown, {wrong} wrong")
    }
}

// A rule, as a line has it: three digits and a mark.
type Rule = [u8; 4];

// Whether a profile gives a name the rule of its line.
fn is_right(names: &Names, profile: u32, [hundreds, tens, ones, mark]: Rule, name: &[u8]) -> bool {
    match names.rule_of(profile, name) {
        Some(NamedRule { rule, running }) => {
            [ZERO + rule / 100, ZERO + rule / 10 % 10, ZERO + rule % 10] == [hundreds, tens, ones]
                && running == (mark != CONST)
        }
        None => false,
    }
}

// Whether a profile has no such name.
fn is_unknown(names: &Names, profile: u32, name: &[u8]) -> bool {
    names.rule_of(profile, name).is_none()
}

// Whether two unknown profiles have no such name.
fn in_no_profile(names: &Names, name: &[u8]) -> bool {
    is_unknown(names, NO_PROFILE, name) && is_unknown(names, LAST_PROFILE, name)
}

// Whether the profiles have a name with its rule; profile 0 does not have every name.
fn is_known(names: &Names, rule: Rule, name: &[u8]) -> bool {
    let in_fewer = if rule[3] == ADDED {
        is_unknown(names, FEWER, name)
    } else {
        is_right(names, FEWER, rule, name)
    };
    in_fewer && is_right(names, SUBGROUPS, rule, name) && in_no_profile(names, name)
}

// Whether no profile has such a name.
fn is_no_name(names: &Names, name: &[u8]) -> bool {
    is_unknown(names, FEWER, name)
        && is_unknown(names, SUBGROUPS, name)
        && in_no_profile(names, name)
}

// The verdict on a line that ends no group.
fn judged(names: &Names, line: &[u8]) -> Verdict {
    match line {
        [NO_RULE, name @ ..] if is_no_name(names, name) => Verdict::Unknown,
        [NO_RULE, ..] => Verdict::Wrong,
        [hundreds, tens, ones, mark, name @ ..]
            if is_known(names, [*hundreds, *tens, *ones, *mark], name) => { Verdict::Known }
        _ => Verdict::Wrong,
    }
}

fn replay(rt: &impl Print, input: &[u8]) -> io::Result<()> {
    let names = Names::new();
    let mut tally = Tally::default();
    for line in Lines(input) {
        if let [GROUP, ..] = line {
            tally.write(rt, line)?;
            tally = Tally::default();
        } else {
            tally.count(judged(&names, line));
        }
    }
    Ok(())
}

fn main(rt: HostRuntime) -> io::Result<()> {
    let mut buffer = stdio::large_buffer();
    let input = stdio::read_into(&mut rt.reader(), &mut buffer)?;
    replay(&rt, input)
}
