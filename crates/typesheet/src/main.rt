// Types a sheet that is read from standard input, over the seven scalars, and writes the two lines of its answer. The first argument is the profile, in
// decimal; later ones are not looked at.
#![tactic(auto)]

use std::env::Env;
use std::io;

// Linux starts no program with an argument as long as this.
const ARGUMENT_ROOM: usize = 131072;

// The profile that the program was started with. An argument that the buffer does not hold counts as an empty one, which is no number.
// Stays: private, and a twin in `whysheet`, since no contract can say with what a program was started, and no public function may lack a promise (document 01).
fn profile(rt: &impl Env) -> u32 {
    let mut argument = [0u8; ARGUMENT_ROOM];
    let n = stdio::arg(rt, 1, &mut argument);
    arguments::profile_of(stdio::arg_count(rt), &argument[..n])
}

// The buffer holds more than the longest sheet. A longer input is refused for its header, whatever follows. The output holds any answer's lines.
fn main(rt: HostRuntime) -> io::Result<()> {
    let profile = profile(&rt);
    let mut buffer = stdio::large_buffer();
    let input = stdio::read_into(&mut rt.reader(), &mut buffer)?;
    let mut out = [0u8; lines::ROOM];
    let k = lines::answer_sheet(profile, input, &mut out);
    rt.write_all(&out[..k])
}
