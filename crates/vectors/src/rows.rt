// The rows that a program replays: the lines of its input, and how many rows agreed.
ghost use Rattle.std.specs.Prelude.{◌≡◌, ◌≤◌, ◌==◌, length, position, true, List, ℕ, OnOk};
ghost use Rattle.std.specs.Iterator.{YieldsFirstRef, item_count};
ghost use Rattle.vectors.specs.Lines.{counted_of, line_end_byte, line_length, line_end, lines_of};
ghost use Rattle.vectors.specs.Replay.{no_counts, Replays};
ghost use Rattle.vectors.specs.declared.rows.Counts.{Counts};

use std::io;

const LINE_END: u8 = b'\n';

const TITLE: u8 = b'*';

// The count, one higher where a row agreed.
pub fn counted(n: u64, agreed: bool) -> u64
    ensures { result ≡ counted_of n agreed }
{
    if agreed { n.wrapping_add(1) } else { n }
}

// The place of the first line end.
fn first_end(s: &[u8]) -> Option<usize>
    ensures { result ≡ position (λ b. b == line_end_byte) s.now }
{
    s.iter().position(|b| *b == LINE_END)
}

// How many bytes stand before the first line end.
fn line_length(s: &[u8]) -> usize
    ensures upper_bound { result ≤ length s.now }
    ensures value { result ≡ line_length s.now }
{
    first_end(s).unwrap_or(s.len())
}

// Where the line that begins at a place ends.
pub fn line_end(s: &[u8], at: usize) -> usize
    requires { at ≤ length s.now }
    ensures lower_bound { (at ≤ result) × (result ≤ length s.now) }
    ensures value { result ≡ line_end s.now at }
{
    at + line_length(&s[at..])
}

// The lines that are left, without their ends.
#[derive(Drop)]
pub struct Lines<'a>(pub &'a [u8]);

impl<'a> Iterator for Lines<'a> {
    type Item = &'a [u8];

    ghost next_gives = { YieldsFirstRef (λ s. lines_of s.0.now) };

    ghost remaining = { item_count (λ s. lines_of s.0.now) };

    fn next(&mut self) -> Option<&'a [u8]> {
        let (_, behind) = self.0.split_first()?;
        let end = line_end(self.0, 0);
        let line = &self.0[..end];
        self.0 = &behind[end.min(behind.len())..];
        Some(line)
    }
}

// How many rows agreed, and how many there were.
#[derive(Clone, Copy, Default)]
pub struct Counts {
    pub agreed: u64,
    pub rows: u64,
}

impl Counts {
    // One row more, which agreed or did not.
    pub fn count(&mut self, agreed: bool)
        ensures agreed { self.new.agreed ≡ counted_of self.old.agreed agreed }
        ensures rows { self.new.rows ≡ counted_of self.old.rows true }
    {
        self.agreed = counted(self.agreed, agreed);
        self.rows = counted(self.rows, true);
    }

    // Writes the counts after a title, and begins anew.
    fn tell(&mut self, rt: &impl Print, title: &[u8]) -> io::Result<()>
        ensures { OnOk result (self.new ≡ no_counts) }
    {
        let Counts { agreed, rows } = *self;
        rt.write_all(title)?;
        println!(rt; ": {agreed} of {rows} agreed")?;
        *self = Counts::default();
        Ok(())
    }
}

// A program that answers the rows of its input.
pub trait Rows<'a> {
    // What a line makes of the program and of the counts.
    ghost line_gives: { Self → List ℕ → Counts → Self → Counts → Type 0 } = { λ _ _ _ _ _. Unit {0} };

    // A line that is no title, and what it adds to the counts.
    fn line(&mut self, line: &'a [u8], counts: &mut Counts)
        ensures { line_gives self.old line.now counts.old self.new counts.new };
}

// Goes through the lines of an input, of which the empty ones say nothing. A title, which begins with `*`, is written with the counts since the title before;
// any other line is the program's own.
pub fn replay<'a, R: Rows<'a>>(rt: &impl Print, input: &'a [u8], rows: &mut R) -> io::Result<()>
    ensures { OnOk result (Replays R.line_gives (lines_of input.now) rows.old no_counts rows.new) }
{
    let mut counts = Counts::default();
    for line in Lines(input) {
        match line {
            [] => {}
            [TITLE, title @ ..] => counts.tell(rt, title)?,
            _ => rows.line(line, &mut counts),
        }
    }
    Ok(())
}
