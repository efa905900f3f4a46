// What the programs that read a sheet are started with. The first argument is the profile, in decimal; later ones are not looked at.
#![tactic(auto)]

ghost use Rattle.std.specs.Prelude.{◌≡◌};
ghost use Rattle.arguments.specs.Profile.{profile_of};

// The profile that an argument stands for that is no number. No profile has it.
const NO_PROFILE: u32 = u32::MAX;

// The profile, by how many words the program was started with, its own name the first of them, and by its first argument.
pub fn profile_of(words: usize, argument: &[u8]) -> u32
    ensures { result ≡ profile_of words argument.now }
{
    if words < 2 {
        return 0;
    }
    text::number_in(argument).unwrap_or(NO_PROFILE)
}
