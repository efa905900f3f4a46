// Runs the template types from standard input, a line for each call: the head, and the tags and values of its arguments in decimal, a blank before each.
// A line `= SIZE N FILLED` begins a table of so many words and entries, with the seven scalars in it (1) or with nothing but 0 (0).
// A line `enter KIND` enters a pointer to i32 (12) or a reference (13). For a call and an entry a line is written: the head, and the answer.
#![tactic(auto)]

use std::io;
use table::{ACCESS_READ, Answer, Entry, KIND_PTR, KIND_REF, Refusal, SPACE_STORAGE};
use vectors::Lines;

const BLANK: u8 = b' ';

// The most numbers of a line that are read.
const NUMBERS: usize = 8;

// A table of so many words and entries.
#[derive(Clone, Copy, Default)]
struct Table {
    size: usize,
    used: usize,
}

// The numbers of an answer, on the rest of the line, and the used count.
fn write_answer(rt: &impl Print, r: Answer) -> io::Result<usize> {
    let used = match r {
        Answer::Value(t, used) => {
            print!(rt; " type {}", t.0)?;
            used
        }
        Answer::NoValue(used) => {
            print!(rt; " none")?;
            used
        }
        Answer::Refused(f) => {
            let Refusal {
                reason,
                place,
                used,
            } = f;
            print!(rt; " refused {} at {}", u8::from(reason), place.0)?;
            used
        }
    };
    println!(rt; " entries {used}")?;
    Ok(used)
}

// The number with one digit more. A byte that is no digit adds none, nor does a digit for which an i64 has no room.
fn with_digit(x: u64, b: u8) -> u64 {
    if !b.is_ascii_digit() || i64::MAX as u64 / 10 < x {
        return x;
    }
    x * 10 + u64::from(b - b'0')
}

// The number of a word; 0 where an i64 has no room for it.
// Stays: std's `parse` refuses a word with any other byte, of which this reads the digits, and a number without room, of which this reads the first digits.
fn number(word: &[u8]) -> i64 {
    let x = word.iter().fold(0, |x, b| with_digit(x, *b));
    let n = i64::try_from(x).unwrap_or(0);
    if word.contains(&b'-') {
        n.wrapping_neg()
    } else {
        n
    }
}

// A count by its place among the numbers; 0 where there is none, and for a negative number.
fn count_at(args: &[i64], i: usize) -> usize {
    match args.get(i) {
        Some(x) => usize::try_from(*x).unwrap_or(0),
        None => 0,
    }
}

// The entry of a pointer or a reference.
fn entry_of(kind: usize) -> Entry {
    Entry {
        kind: if kind == 13 { KIND_REF } else { KIND_PTR },
        p: SPACE_STORAGE,
        q: ACCESS_READ,
        elem: 3,
    }
}

fn answer(words: &mut [u32], n: usize, head: &[u8], args: &[i64]) -> Answer {
    if head.starts_with(b"e") {
        return entering::enter_type(words, n, entry_of(count_at(args, 0)));
    }
    tplt::type_template(words, n, head, args)
}

// One call in a table: its line, and the table after it.
fn call(
    rt: &impl Print,
    words: &mut [u32],
    t: Table,
    head: &[u8],
    args: &[i64],
) -> io::Result<Table> {
    let Table { size, used } = t;
    let Some(words) = words.get_mut(..size) else {
        return Ok(t);
    };
    rt.write_all(head)?;
    let used = write_answer(rt, answer(words, used, head, args))?;
    Ok(Table { size, used })
}

// A table that begins: its seven scalars are there where they are asked for.
fn table_of(words: &mut [u32], args: &[i64]) -> Table {
    words.fill(0);
    if count_at(args, 2) == 1 && 28 <= words.len() {
        entering::put_scalars(words);
    }
    Table {
        size: count_at(args, 0),
        used: count_at(args, 1),
    }
}

fn run_line(rt: &impl Print, words: &mut [u32], t: Table, line: &[u8]) -> io::Result<Table> {
    let mut parts = line.split(|b| *b == BLANK);
    let head = parts.next().unwrap_or(b"");
    let mut args = [0; NUMBERS];
    for (arg, word) in args.iter_mut().zip(parts) {
        *arg = number(word);
    }
    // a blank stands before each number
    let count = line.iter().filter(|b| **b == BLANK).count();
    let args = &args[..count.min(NUMBERS)];
    if head.starts_with(b"=") {
        return Ok(table_of(words, args));
    }
    call(rt, words, t, head, args)
}

fn main(rt: HostRuntime) -> io::Result<()> {
    let mut words = [0u32; 1024];
    let mut buffer = stdio::large_buffer();
    let n = stdio::read_full(&mut rt.reader(), &mut buffer)?;
    let mut t = Table::default();
    for line in Lines(&buffer[..n]) {
        t = run_line(&rt, &mut words, t, line)?;
    }
    Ok(())
}
