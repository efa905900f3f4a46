// The one line of a call refused by a rule that is not listed: the first operand that breaks it, and what is wanted.
#![tactic(auto)]

ghost use Rattle.std.specs.Prelude.{◌≡◌, true, false, ◌⊎◌, ◌+◌, ◌/◌, ◌<◌, ◌≤◌, length, not, position};
ghost use Rattle.conv.specs.Rank.{converts};
ghost use Rattle.conv.specs.Types.{i32, u32};
ghost use Rattle.conv.specs.Types.Ty.{scalar};
ghost use Rattle.held.specs.Held.{number_of};
ghost use Rattle.text.specs.Text.{ascii, Put, far};
ghost use Rattle.table.specs.Table.{Sound};
ghost use Rattle.spell.specs.Spell.{spelling};
ghost use Rattle.overload.specs.Rows.{values};
ghost use Rattle.ruled.specs.Call.{operand_ty, operand_tys};
ghost use Rattle.memory.specs.inner.Component.{Below};
ghost use Rattle.weigh.specs.Weigh.{first_miss};
ghost use Rattle.reasons.specs.Reasons.{first_wanted, wanted_line, value_line, broken_line};
ghost use Rattle.reasons.specs.inner.Told.{ruling_of, types_of, Told, piece_room};
ghost use Rattle.broken.specs.inner.Alone.{alone};

// The rules of unary `&` and `*`, behind those that names have.
const ADDRESS_OF: u8 = 109;

const INDIRECTION: u8 = 110;

// The scalar i32.
const I32: u8 = 3;

// What a rule wants of its first operand.
fn first_wanted(rule: u8) -> &'static [u8]
    ensures wanted { 100 ≤ rule → result.now ≡ ascii (first_wanted (ruling_of rule)) }
    ensures short { length result.now < 256 }
{
    match rule {
        ADDRESS_OF => b"a reference, not in space handle",
        INDIRECTION => b"a pointer",
        names::RULE_ARRAY_LENGTH =>
            b"a pointer in space storage, read or read_write, to an array without count",
        names::RULE_UNIFORM_LOAD =>
            b"a read_write pointer in space workgroup to an atomic, or to a type of fixed size with no atomic in it",
        _ => b"a read_write pointer in space storage or workgroup to an atomic",
    }
}

// The line of a first operand that breaks its rule.
fn first_line(words: &[u32], n: usize, rule: u8, v: u32, out: &mut [u8], at: usize) -> usize
    requires { Sound words.now n × (number_of v < n) × (100 ≤ rule) × (at < far / 4) }
    ensures put { Put out.old at (wanted_line 0 (operand_ty words.now v) (ascii (first_wanted (ruling_of rule)))) result out.new }
    ensures upper_bound { result ≤ at + piece_room }
{
    reasons::wanted_line(words, n, 0, v, first_wanted(rule), out, at)
}

// The place of the first value that does not convert to the scalar s.
fn first_value(words: &[u32], n: usize, rest: &[u32], s: u8) -> Option<usize>
    requires { Sound words.now n × Below n rest.now × (s < 7) }
    ensures { result ≡ position (λ v. not (converts (operand_ty words.now v) (scalar s))) rest.now }
{
    rest.iter()
        .position(|v| !memory::value_fits(words, n, *v, s))
}

// What is wanted of a value: the component s, i32 or u32.
fn component(s: u8) -> &'static [u8]
    requires { (s ≡ i32) ⊎ (s ≡ u32) }
    ensures spelled { result.now ≡ spelling (scalar s) }
    ensures short { length result.now < 256 }
{
    match s {
        I32 => b"i32",
        _ => b"u32",
    }
}

// The line of the first value that does not convert to the component s, i32 or u32, of an atomic.
fn value_line(words: &[u32], n: usize, rest: &[u32], s: u8, out: &mut [u8], at: usize) -> usize
    requires { Sound words.now n × Below n rest.now × (length rest.now ≤ 2) × ((s ≡ i32) ⊎ (s ≡ u32)) × (first_miss (values (length rest.now) s) (operand_tys words.now rest.now) < length rest.now) × (at < far / 4) }
    ensures put { Put out.old at (value_line (length rest.now) s (operand_tys words.now rest.now)) result out.new }
    ensures upper_bound { result ≤ at + piece_room }
{
    let k = first_value(words, n, rest, s).unwrap();
    reasons::wanted_line(words, n, k + 1, rest[k], component(s), out, at)
}

// Whether a rule has one operand and looks at no value.
fn is_alone(rule: u8) -> bool
    ensures { result ≡ alone rule }
{
    matches!(
        rule,
        names::RULE_ARRAY_LENGTH | names::RULE_UNIFORM_LOAD | ADDRESS_OF | INDIRECTION
    )
}

// The line of a call that is refused with 8 by a rule that is not listed.
pub fn broken_line(
    words: &[u32],
    n: usize,
    rule: u8,
    args: &[u32],
    out: &mut [u8],
    at: usize,
) -> usize
    requires { Told words.now n rule false args.now × (100 ≤ rule) × (at < far / 4) }
    ensures put { Put out.old at (broken_line (ruling_of rule) (types_of words.now args.now)) result out.new }
    ensures upper_bound { result ≤ at + piece_room }
{
    let v = args[0];
    if is_alone(rule) {
        return first_line(words, n, rule, v, out, at);
    }
    match memory::pointed(words, n, held::number(v).0) {
        Some(s) => value_line(words, n, &args[1..], s, out, at),
        None => first_line(words, n, rule, v, out, at),
    }
}
