// The arguments of a template list, read from pairs of a tag and a value, and the count of an array.
ghost use Rattle.std.specs.Prelude.{◌+◌, ◌<◌, ◌≡◌, length};
ghost use Rattle.tplt.specs.Params.{type_param, i32_param, u32_param, param_of, params_of, types_known, arguments_of, count_z, count_of};
ghost use Rattle.tplt.specs.inner.Steps.{param_at};

use table::{Reason, TypeNo};

// The tags of an argument. Any other tag is another literal.
const TAG_TYPE: i64 = 0;

const TAG_ABSTRACT_INT: i64 = 1;

const TAG_I32: i64 = 2;

const TAG_U32: i64 = 3;

// An argument of a template list: a type of the table, a number that is no type of it, or a literal.
// Stays: `NoType` is an argument among the others, of which `is_typed` speaks, and the theorems `array-counted` and `abstract-count` take `count_of` of any
// argument that a pair is; with an Option around it each of them would have to open it first.
#[derive(Clone, Copy)]
pub enum TpltParam {
    Typed(TypeNo),
    NoType,
    AbstractInt(i64),
    I32(i32),
    U32(u32),
    Other,
}

// A list of arguments that can be right: a type alone, or a type and a literal.
#[derive(Clone, Copy)]
pub enum Arguments {
    One(TypeNo),
    Two(TypeNo, TpltParam),
}

fn type_param(n: usize, value: i64) -> TpltParam
    ensures { result ≡ type_param n value }
{
    match usize::try_from(value) {
        Ok(t) => {
            if n <= t {
                return TpltParam::NoType;
            }
            TpltParam::Typed(TypeNo(t))
        }
        Err(_) => TpltParam::NoType,
    }
}

fn i32_param(value: i64) -> TpltParam
    ensures { result ≡ i32_param value }
{
    match i32::try_from(value) {
        Ok(n) => TpltParam::I32(n),
        Err(_) => TpltParam::Other,
    }
}

fn u32_param(value: i64) -> TpltParam
    ensures { result ≡ u32_param value }
{
    match u32::try_from(value) {
        Ok(n) => TpltParam::U32(n),
        Err(_) => TpltParam::Other,
    }
}

// The argument of one pair, in a table of n entries.
fn param_of(n: usize, tag: i64, value: i64) -> TpltParam
    ensures { result ≡ param_of n tag value }
{
    match tag {
        TAG_TYPE => type_param(n, value),
        TAG_ABSTRACT_INT => TpltParam::AbstractInt(value),
        TAG_I32 => i32_param(value),
        TAG_U32 => u32_param(value),
        _ => TpltParam::Other,
    }
}

// The argument of the pair at a place.
fn param_at(n: usize, args: &[i64], at: usize) -> TpltParam
    requires { at + 1 < length args.now }
    ensures { result ≡ param_at n args.now at }
{
    param_of(n, args[at], args[at + 1])
}

// Whether every type argument is a type of the table.
pub fn types_known(n: usize, args: &[i64]) -> bool
    ensures { result ≡ types_known (params_of n args.now) }
{
    let mut left = args;
    while let [tag, value, rest @ ..] = left {
        let p = param_of(n, *tag, *value);
        if let TpltParam::NoType = p {
            return false;
        }
        left = rest;
    }
    true
}

// The list of arguments, by its form.
pub fn arguments_of(n: usize, args: &[i64]) -> Option<Arguments>
    ensures { result ≡ arguments_of n args.now }
{
    let count = args.len();
    if count < 2 {
        return None;
    }
    let first = param_at(n, args, 0);
    let TpltParam::Typed(t) = first else {
        return None;
    };
    if count == 2 {
        return Some(Arguments::One(t));
    }
    if count != 4 {
        return None;
    }
    let second = param_at(n, args, 2);
    match second {
        TpltParam::Typed(_) => None,
        TpltParam::NoType => None,
        _ => Some(Arguments::Two(t, second)),
    }
}

// The count that a number is. Its sign is tested before the cast, which then loses nothing.
fn count_in(count: i64) -> Result<u32, Reason>
    ensures { result ≡ count_z count }
{
    if count <= 0 {
        return Err(Reason::Count);
    }
    match u32::try_from(count) {
        Ok(n) => Ok(n),
        Err(_) => Err(Reason::Count),
    }
}

// The count that a literal gives.
pub fn count_of(p: TpltParam) -> Result<u32, Reason>
    ensures { result ≡ count_of p }
{
    match p {
        TpltParam::AbstractInt(n) => count_in(n),
        TpltParam::I32(n) => count_in(i64::from(n)),
        TpltParam::U32(n) => count_in(i64::from(n)),
        _ => Err(Reason::Count),
    }
}
