// Types a sheet that is read from standard input, over the seven scalars, and writes the two lines of its answer; then why the item came to it that was refused with 8, or, of an accepted
// sheet, the last: overload by overload, a piece at a time. The first argument is the profile, in decimal; later ones are not looked at.
#![tactic(auto)]

ghost use Rattle.std.specs.Prelude.{◌≡◌, length};
ghost use Rattle.desk.specs.inner.Code.{Asking};

use desk::Query;
use std::env::Env;
use std::io;
use step::VALUES;

// Linux starts no program with an argument as long as this.
const ARGUMENT_ROOM: usize = 131072;

// The profile that the program was started with. An argument that the buffer does not hold counts as an empty one, which is no number.
// Stays: private, and a twin in `typesheet`, since no contract can say with what a program was started, and no public function may lack a promise (document 01).
fn profile(rt: &impl Env) -> u32 {
    let mut argument = [0u8; ARGUMENT_ROOM];
    let n = stdio::arg(rt, 1, &mut argument);
    arguments::profile_of(stdio::arg_count(rt), &argument[..n])
}

// The pieces that are asked for, each written from the output, which holds any.
fn write_pieces(
    rt: &impl Print,
    words: &[u32],
    stack: &[u32],
    q: Query,
    out: &mut [u8],
) -> io::Result<()>
    requires { Asking q stack.now words.now × (length out.old ≡ 32768) }
{
    let n = desk::piece_count(q);
    for j in 0..n {
        let k = desk::put_piece(words, stack, q, j, out, 0);
        rt.write_all(&out[..k])?;
    }
    Ok(())
}

// The buffer holds more than the longest sheet. A longer input is refused for its header, whatever follows. The output holds any answer's lines.
fn main(rt: HostRuntime) -> io::Result<()> {
    let profile = profile(&rt);
    let mut buffer = stdio::large_buffer();
    let input = stdio::read_into(&mut rt.reader(), &mut buffer)?;
    let mut out = [0u8; lines::ROOM];
    let k = lines::answer_sheet(profile, input, &mut out);
    rt.write_all(&out[..k])?;
    let mut words = lines::scalars();
    let mut stack = [0u32; VALUES];
    match desk::tell(profile, input, &mut words, &mut stack) {
        Some(q) => write_pieces(&rt, &words, &stack, q, &mut out),
        None => Ok(()),
    }
}
