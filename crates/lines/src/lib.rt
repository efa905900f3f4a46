// The two lines that the program writes for a sheet.
#![tactic(auto)]

ghost use Rattle.std.specs.Prelude.{◌≡◌, ◌+◌, ◌*◌, ◌<◌, ◌≤◌};
ghost use Rattle.table.specs.Table.{Sound};
ghost use Rattle.text.specs.Text.{decimal, Put, far};
ghost use Rattle.lines.specs.Lines.{type_line, refused_line, first_line, lines_of, lines_room, start, report, Spellable};

use answer::{Answer, Reason, Refusal, TypeNo};
use sheet::type_sheet;

// The bytes that any answer's two lines have room in.
pub const ROOM: usize = 32768;

// The words of a table that has room for 256 entries.
const WORDS: usize = 1024;

// The first line of a type.
// Stays: no `Display`, here and below: `write` says in one equation what stands at each place of the lent output, and where the text ends, past it too (`Put`). By a `fmt` that would be said of a writer of our own besides.
fn type_line(words: &[u32], used: usize, t: TypeNo, out: &mut [u8]) -> usize
    requires { Sound words.now used × (t.0 < used) }
    ensures put { Put out.old 0 (type_line words.now t.0) result out.new }
    ensures result_bound { result + 64 ≤ lines_room }
{
    let i = t.0;
    let a = text::put_after(out, 0, b"type ", i);
    let b = text::put_byte(out, a, b' ');
    spell::spell_type(words, used, i, out, b)
}

// The first line of a refusal.
fn refused_line(r: Refusal, out: &mut [u8]) -> usize
    ensures put { Put out.old 0 (refused_line r) result out.new }
    ensures result_bound { result + 64 ≤ lines_room }
{
    let number = u8::from(r.reason);
    let a = text::put_after(out, 0, b"refused ", cast::wide(number));
    let b = text::put_after(out, a, b" at ", r.place.0);
    match r.reason {
        Reason::NoRoom(lacking) => text::put_after(out, b, b" lacking ", cast::word(lacking)),
        _ => b,
    }
}

fn first_line(words: &[u32], a: Answer, out: &mut [u8]) -> usize
    requires { Spellable words.now a }
    ensures put { Put out.old 0 (first_line words.now a) result out.new }
    ensures result_bound { result + 64 ≤ lines_room }
{
    match a {
        Answer::Value(t, used) => type_line(words, used, t, out),
        Answer::NoValue(_) => text::put_text(out, 0, b"none"),
        Answer::Refused(r) => refused_line(r, out),
    }
}

// The two lines of an answer, from the start of the output: how many bytes they have. Those that the output has no room for are left out.
pub fn write(words: &[u32], a: Answer, out: &mut [u8]) -> usize
    requires { Spellable words.now a }
    ensures put { Put out.old 0 (lines_of words.now a) result out.new }
    ensures upper_bound { result ≤ lines_room }
{
    let end = first_line(words, a, out);
    let next = text::put_byte(out, end, b'\n');
    let last = text::put_after(out, next, b"entries ", answer::used_of(a));
    text::put_byte(out, last, b'\n')
}

// The words of a table of the seven scalars.
pub fn scalars() -> [u32; 1024]
    ensures { result ≡ start }
{
    let mut words = [0; WORDS];
    entering::put_scalars(&mut words);
    words
}

// For a host: the two lines of a sheet that is typed over the seven scalars in a profile, from the start of the output; how many bytes they have. They do not show the
// mark of its value.
pub fn answer_sheet(profile: u32, bytes: &[u8], out: &mut [u8]) -> usize
    ensures put { Put out.old 0 (report profile bytes.now) result out.new }
    ensures upper_bound { result ≤ lines_room }
{
    let mut words = scalars();
    let typed = type_sheet(&mut words, table::SCALARS, profile, bytes);
    write(&words, typed.answer, out)
}
