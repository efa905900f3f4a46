// Answers every stored sheet and compares with the stored lines. Standard input, as tests/pack makes it: how many sheets there are; then of each its profile,
// its length and its bytes, and the length and the bytes of its two lines. A number is four bytes, big-endian.
#![tactic(auto)]

use std::io::{self, Read};

// The longest sheet and the longest lines that are stored have fewer bytes.
const SHEET_ROOM: usize = 131072;

const LINES_ROOM: usize = 8192;

fn read_number(reader: &mut impl Read) -> io::Result<u32> {
    let mut b = [0; 4];
    stdio::read_full(reader, &mut b)?;
    Ok(u32::from_be_bytes(b))
}

// Reads a length and so many bytes, or as many as the buffer holds.
fn read_part<'b>(reader: &mut impl Read, buffer: &'b mut [u8]) -> io::Result<&'b [u8]> {
    let size = read_number(reader)? as usize;
    let room = size.min(buffer.len());
    stdio::read_into(reader, &mut buffer[..room])
}

// Whether a sheet is answered with these lines in a profile.
fn agrees(profile: u32, sheet: &[u8], told: &[u8]) -> bool {
    let mut out = [0; LINES_ROOM];
    let n = lines::answer_sheet(profile, sheet, &mut out);
    out.get(..n) == Some(told)
}

// Whether the next sheet that is read is answered with the lines that follow it.
fn next_agrees(reader: &mut impl Read) -> io::Result<bool> {
    let profile = read_number(reader)?;
    let mut sheet = [0; SHEET_ROOM];
    let sheet = read_part(reader, &mut sheet)?;
    let mut told = [0; LINES_ROOM];
    let told = read_part(reader, &mut told)?;
    Ok(agrees(profile, sheet, told))
}

// How many of the sheets agree; each that does not is written by its place, counted from 0.
fn replay(rt: &impl Print, reader: &mut impl Read, sheets: u32) -> io::Result<u32> {
    let mut right = 0;
    for i in 0..sheets {
        if next_agrees(reader)? {
            right += 1;
        } else {
            println!(rt; "another answer: sheet {i}")?;
        }
    }
    Ok(right)
}

fn main(rt: HostRuntime) -> io::Result<()> {
    let mut reader = rt.reader();
    let sheets = read_number(&mut reader)?;
    let right = replay(&rt, &mut reader, sheets)?;
    println!(rt; "{right} sheets agree")
}
