// Lists the items of a sheet given on standard input through the reader, one line each: the place of the item, its kind, its numbers and its name, and whether what it
// pushes is known only when running.
#![tactic(auto)]

use frame::{Item, Placed};
use reader::Reader;
use std::io;

// The mark of a value that is pushed.
fn mark(running: bool) -> &'static str {
    if running { " running" } else { "" }
}

// A name, which ends a line. It may be any bytes.
fn name(rt: &impl Print, name: &[u8]) -> io::Result<()> {
    rt.write_all(name)?;
    println!(rt;)
}

// Writes what stands at a place, and says whether an item stands there.
fn line(rt: &impl Print, sheet: &[u8], found: Placed) -> io::Result<bool> {
    print!(rt; "{}", found.at.0)?;
    match found.item {
        Item::Push { ty, running } => println!(rt; " push {}{}", ty.0, mark(running))?,
        Item::Unary(o) => println!(rt; " unary {o}")?,
        Item::Binary(o) => println!(rt; " binary {o}")?,
        Item::Call { count, name: _ } => {
            print!(rt; " call {count} ")?;
            name(rt, frame::call_name(sheet, found.at))?;
        }
        Item::CallTemplate {
            template,
            count,
            name: _,
        } => {
            print!(rt; " template {} call {count} ", template.0)?;
            name(rt, frame::call_name(sheet, found.at))?;
        }
        Item::Take {
            kind,
            p,
            q,
            elem,
            running,
        } => println!(rt; " take {kind} {p} {q} {elem}{}", mark(running))?,
        Item::End => {
            println!(rt; " end")?;
            return Ok(false);
        }
        Item::Bad => {
            println!(rt; " bad")?;
            return Ok(false);
        }
    }
    Ok(true)
}

// No more lines than bytes are written: each item but the last has two bytes at least.
fn list(rt: &impl Print, sheet: &[u8]) -> io::Result<()> {
    let mut reader = Reader::start(sheet);
    for _ in 0..sheet.len() {
        let step = reader.next();
        if !line(rt, sheet, step.found)? {
            return Ok(());
        }
        reader = step.rest;
    }
    Ok(())
}

fn main(rt: HostRuntime) -> io::Result<()> {
    let mut buffer = stdio::large_buffer();
    let n = stdio::read_full(&mut rt.reader(), &mut buffer)?;
    let sheet = &buffer[..n];
    if frame::header(sheet) {
        list(&rt, sheet)
    } else {
        println!(&rt; "header")
    }
}
