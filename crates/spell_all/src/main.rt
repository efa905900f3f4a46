// Enters types of every kind in a table that starts from the scalars, and writes the spelling of each entry, a line for each. Then
// asks for one spelling with an output of just its length, one byte short, and empty; and for numbers and tables that are refused.
#![tactic(auto)]

use std::io;
use table::{
    ACCESS_READ, ACCESS_READ_WRITE, ACCESS_WRITE, Answer, Entry, KIND_ARRAY, KIND_ATOMIC,
    KIND_EXCHANGE, KIND_FREXP, KIND_MAT, KIND_MODF, KIND_PTR, KIND_REF, KIND_RUNTIME, KIND_VEC,
    Refusal, SPACE_FUNCTION, SPACE_HANDLE, SPACE_PRIVATE, SPACE_STORAGE, SPACE_UNIFORM,
    SPACE_WORKGROUP, TypeNo,
};

// The words kind, p, q and elem of the entries from number 7 on.
const ENTRIES: [[u32; 4]; 69] = [
    [KIND_VEC, 2, 0, 0], // 7
    [KIND_VEC, 3, 0, 1],
    [KIND_VEC, 4, 0, 2],
    [KIND_VEC, 2, 0, 3], // 10
    [KIND_VEC, 3, 0, 4],
    [KIND_VEC, 4, 0, 5],
    [KIND_VEC, 2, 0, 5],
    [KIND_VEC, 3, 0, 6],
    [KIND_VEC, 2, 0, 2], // 15
    [KIND_MAT, 2, 2, 2],
    [KIND_MAT, 2, 3, 5],
    [KIND_MAT, 2, 4, 6],
    [KIND_MAT, 3, 2, 2],
    [KIND_MAT, 3, 3, 5], // 20
    [KIND_MAT, 3, 4, 6],
    [KIND_MAT, 4, 2, 2],
    [KIND_MAT, 4, 3, 6],
    [KIND_MAT, 4, 4, 5],
    [KIND_ARRAY, 4, 0, 13], // 25
    [KIND_ARRAY, 1, 0, 0],
    [KIND_ARRAY, 4294967295, 0, 23],
    [KIND_ARRAY, 1002003, 0, 1],
    [KIND_RUNTIME, 0, 0, 4],
    [KIND_RUNTIME, 0, 0, 25], // 30
    [KIND_ATOMIC, 0, 0, 3],
    [KIND_ATOMIC, 0, 0, 4],
    [KIND_RUNTIME, 0, 0, 32],
    [KIND_PTR, SPACE_FUNCTION, ACCESS_READ_WRITE, 11],
    [KIND_PTR, SPACE_PRIVATE, ACCESS_WRITE, 0], // 35
    [KIND_PTR, SPACE_WORKGROUP, ACCESS_READ_WRITE, 31],
    [KIND_PTR, SPACE_UNIFORM, ACCESS_READ, 24],
    [KIND_PTR, SPACE_STORAGE, ACCESS_READ, 4],
    [KIND_PTR, SPACE_STORAGE, ACCESS_READ_WRITE, 33],
    [KIND_REF, SPACE_FUNCTION, ACCESS_READ_WRITE, 10], // 40
    [KIND_REF, SPACE_PRIVATE, ACCESS_WRITE, 3],
    [KIND_REF, SPACE_WORKGROUP, ACCESS_READ, 26],
    [KIND_REF, SPACE_UNIFORM, ACCESS_READ, 20],
    [KIND_REF, SPACE_STORAGE, ACCESS_READ_WRITE, 29],
    [KIND_REF, SPACE_HANDLE, ACCESS_WRITE, 5], // 45
    [KIND_REF, SPACE_HANDLE, ACCESS_READ, 6],
    [KIND_FREXP, 0, 0, 2],
    [KIND_FREXP, 0, 0, 5],
    [KIND_FREXP, 0, 0, 6],
    [KIND_FREXP, 0, 0, 9], // 50
    [KIND_FREXP, 0, 0, 12],
    [KIND_FREXP, 0, 0, 14],
    [KIND_MODF, 0, 0, 2],
    [KIND_MODF, 0, 0, 5],
    [KIND_MODF, 0, 0, 6], // 55
    [KIND_MODF, 0, 0, 15],
    [KIND_MODF, 0, 0, 13],
    [KIND_MODF, 0, 0, 14],
    [KIND_ARRAY, 2, 0, 5],
    [KIND_ARRAY, 3, 0, 59], // 60
    [KIND_ARRAY, 50, 0, 60],
    [KIND_RUNTIME, 0, 0, 61],
    [KIND_PTR, SPACE_STORAGE, ACCESS_READ_WRITE, 62],
    [KIND_REF, SPACE_STORAGE, ACCESS_READ, 62],
    [KIND_ARRAY, 900, 0, 51], // 65
    [KIND_PTR, SPACE_FUNCTION, ACCESS_READ, 58],
    [KIND_ARRAY, 10, 0, 47],
    [KIND_RUNTIME, 0, 0, 53],
    [KIND_REF, SPACE_HANDLE, ACCESS_READ_WRITE, 32],
    [KIND_ARRAY, 4294967295, 0, 67], // 70
    [KIND_EXCHANGE, 0, 0, 3],
    [KIND_EXCHANGE, 0, 0, 4],
    [KIND_ARRAY, 12, 0, 71],
    [KIND_RUNTIME, 0, 0, 72],
    [KIND_PTR, SPACE_FUNCTION, ACCESS_READ_WRITE, 72], // 75
];

// The used count after entering one entry.
fn enter(rt: &impl Print, words: &mut [u32], n: usize, row: [u32; 4]) -> io::Result<usize> {
    let [kind, p, q, elem] = row;
    match entering::enter_type(words, n, Entry { kind, p, q, elem }) {
        Answer::Value(_, m) => Ok(m),
        Answer::NoValue(m) => Ok(m),
        Answer::Refused(_) => {
            println!(rt; "not entered")?;
            Ok(n)
        }
    }
}

fn fill(rt: &impl Print, words: &mut [u32], n: usize) -> io::Result<usize> {
    let mut used = n;
    for row in ENTRIES {
        used = enter(rt, words, used, row)?;
    }
    Ok(used)
}

// The first k bytes, and the end of the line.
fn write_line(rt: &impl Print, out: &[u8], k: usize) -> io::Result<()> {
    if let Some(text) = out.get(..k) {
        rt.write_all(text)?;
    }
    println!(rt)
}

// The numbers of a reply: the length, or the refusal's number, its place and the used count.
fn write_reply(rt: &impl Print, r: Result<usize, Refusal>) -> io::Result<()> {
    match r {
        Ok(k) => print!(rt; "length {k}"),
        Err(f) => {
            let Refusal {
                reason,
                place,
                used,
            } = f;
            print!(rt; "refused {} at {} used {used}", u8::from(reason), place.0)
        }
    }
}

// The spelling of entry i on a line of its own.
fn show(rt: &impl Print, words: &[u32], n: usize, i: usize) -> io::Result<()> {
    let mut out = [b'.'; 80];
    match spell::spell(words, n, TypeNo(i), &mut out) {
        Ok(k) => write_line(rt, &out, k),
        Err(f) => {
            write_reply(rt, Err(f))?;
            println!(rt)
        }
    }
}

fn show_all(rt: &impl Print, words: &[u32], n: usize) -> io::Result<()> {
    for i in 0..n {
        show(rt, words, n, i)?;
    }
    Ok(())
}

// What entry i comes to in the first `room` bytes of an output of dots: the reply, and the whole output afterwards.
fn ask(rt: &impl Print, words: &[u32], n: usize, i: usize, room: usize) -> io::Result<()> {
    let mut out = [b'.'; 24];
    let r = spell::spell(words, n, TypeNo(i), &mut out[..room.min(24)]);
    write_reply(rt, r)?;
    print!(rt; " ")?;
    write_line(rt, &out, 24)
}

fn main(rt: HostRuntime) -> io::Result<()> {
    let mut words = [0u32; 1024];
    entering::put_scalars(&mut words);
    let n = fill(&rt, &mut words, 7)?;
    show_all(&rt, &words, n)?;
    // ptr<storage,u32,read>, of 21 bytes
    ask(&rt, &words, n, 38, 24)?;
    ask(&rt, &words, n, 38, 21)?;
    ask(&rt, &words, n, 38, 20)?;
    ask(&rt, &words, n, 38, 0)?;
    // no such number, with room and without
    ask(&rt, &words, n, n, 24)?;
    ask(&rt, &words, n, n, 0)?;
    // no sound table
    ask(&rt, &words, 6, 38, 0)
}
