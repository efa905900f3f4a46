// What the programs that replay vectors share: a table of the 55 plain and matrix types, the character of an answer, the ends of lines, and the counts that are written.
// Type i has the character '0' + i. Plain numbers come first, 0 to 27; then mat2x2 to mat4x4, each of AbstractFloat, f32 and f16.
// The result types of frexp follow, then those of modf: over the scalar, vec2, vec3 and vec4, each of AbstractFloat, f32 and f16.
#![tactic(auto)]

ghost use Rattle.std.specs.Prelude.{◌≡◌, ◌*◌, ◌<◌, ◌≤◌, replicate};
ghost use Rattle.table.specs.Table.{scalars, stride};
ghost use Rattle.table.specs.Enter.{with_scalars};
ghost use Rattle.answer.specs.Answer.{reason_no};
ghost use Rattle.vectors.specs.Filled.{float_no, entry_of, FillDone};
ghost use Rattle.vectors.specs.Chars.{modfs, most_types, float_place, result_char, entry_char, new_char, value_char, silent_char, reason_char, refusal_char, char_of, answer_char, type_no};

mod rows;

pub use rows::{Counts, Lines, Rows, counted, line_end, replay};
use table::{Answer, Entry, Place, Reason, Refusal, TypeNo};

// How many types the table holds, and the most that a table may hold whose types have characters.
pub const TYPES: usize = 55;

pub const MOST_TYPES: usize = 79;
// Below these numbers stand the scalars and vectors, and all the types.
const FIRST_MAT: u32 = 28;

const END: u32 = 55;

const SCALARS: u32 = conv::SCALARS as u32;
// The three floats.
const ABSTRACT_FLOAT: u32 = 2;

const F32: u32 = 5;

const F16: u32 = 6;
// The character of type 0, those of the refusals that rows have and of a call without value, all below it, and that of an answer which no row expects.
pub const FIRST: u8 = b'0';

pub const REFUSED: u8 = b'.';

pub const NO_NAME: u8 = b'$';

const MISCOUNTED: u8 = b'\'';

const RUNNING_REFUSED: u8 = b',';

const REFERENCE_REFUSED: u8 = b'&';

const SILENT: u8 = b'%';

pub const OTHER: u8 = b'!';

// The words of a table of one type more.
const WORDS: usize = 224;
// The number of the first result type of frexp, and of modf.
const FREXPS: u8 = 55;

const MODFS: u8 = 67;

// A float by its place among the three.
fn float_no(k: u32) -> u32
    ensures { result ≡ float_no k }
{
    match k {
        0 => ABSTRACT_FLOAT,
        1 => F32,
        _ => F16,
    }
}

// The entry of a vector or matrix by its number.
// Stays: apart from `ruled::vec_entry` and `ruled::mat_entry`, since `ruled` numbers each shape of a matrix over all seven scalars (`overload` `code_of`), and this table over three floats.
fn entry_of(i: u32) -> Entry
    ensures { result ≡ entry_of i }
{
    if i < FIRST_MAT {
        return Entry {
            kind: table::KIND_VEC,
            p: i / SCALARS + 1,
            q: 0,
            elem: i % SCALARS,
        };
    }
    let m = i - FIRST_MAT;
    Entry {
        kind: table::KIND_MAT,
        p: m / 9 + 2,
        q: m / 3 % 3 + 2,
        elem: float_no(m % 3),
    }
}

// Enters the vectors and matrices in their order, and gives the used count.
pub fn fill(words: &mut [u32]) -> usize
    ensures { FillDone words.old result words.new }
{
    let mut used = table::SCALARS;
    for i in SCALARS..END {
        used = answer::used_of(entering::enter_type(words, used, entry_of(i)));
    }
    used
}

// A table of the 55 types in so many words, and the used count.
#[derive(Clone, Copy)]
pub struct Types<const N: usize> {
    pub words: [u32; N],
    pub used: usize,
}

impl<const N: usize> Types<N> {
    // The scalars, the vectors and the matrices, entered into a table of nothing but 0.
    pub fn new() -> Self
        requires { scalars * stride ≤ N }
        ensures { FillDone (with_scalars scalars (replicate N 0)) result.used result.words }
    {
        let mut words = [0; N];
        entering::put_scalars(&mut words);
        let used = fill(&mut words);
        Types { words, used }
    }
}

// The place of a type that is a float scalar or vector, by its width and then its float.
fn float_place(t: u32) -> Option<u8>
    ensures { result ≡ float_place t }
{
    let width = t / SCALARS;
    if 4 <= width {
        return None;
    }
    let first = width as u8 * 3;
    match t % SCALARS {
        ABSTRACT_FLOAT => Some(first),
        F32 => Some(first + 1),
        F16 => Some(first + 2),
        _ => None,
    }
}

// The character of the result type over a float's place, whose first has that number.
fn result_char(first: u8, place: Option<u8>) -> u8
    requires { first ≤ modfs }
    ensures { result ≡ result_char first place }
{
    match place {
        Some(k) if k < 12 => FIRST + first + k,
        _ => OTHER,
    }
}

// The character of an entry that is a result type of frexp or of modf.
fn entry_char(e: Entry) -> u8
    ensures { result ≡ entry_char e }
{
    if e.p != 0 || e.q != 0 {
        return OTHER;
    }
    match e.kind {
        table::KIND_FREXP => result_char(FREXPS, float_place(e.elem)),
        table::KIND_MODF => result_char(MODFS, float_place(e.elem)),
        _ => OTHER,
    }
}

// The character of the entry after the 55.
#[tactic(auto, unfolding(crate::specs::Chars::new_char))]
fn new_char(words: &[u32]) -> u8
    ensures { result ≡ new_char words.now }
{
    if words.len() < WORDS {
        return OTHER;
    }
    entry_char(table::entry_at(words, TYPES))
}

// The character of a value, where the table had so many types before the call: one of them, and nothing was entered; or the one after them, which is new.
fn value_char(types: usize, new: u8, t: usize, used: usize) -> u8
    requires { types ≤ most_types }
    ensures { result ≡ value_char types new t used }
{
    if t < types && used == types {
        FIRST + t as u8
    } else if t == types && used == types + 1 {
        new
    } else {
        OTHER
    }
}

// The character of a call without value, which entered nothing.
fn silent_char(types: usize, used: usize) -> u8
    ensures { result ≡ silent_char types used }
{
    if used == types { SILENT } else { OTHER }
}

// The character of a refusal: no overload fits, an unknown name, a wrong count of operands, an operand that is running and abstract, one that is a reference.
fn reason_char(reason: Reason) -> u8
    ensures { result ≡ reason_char (reason_no reason) }
{
    match reason {
        Reason::NoOverload => REFUSED,
        Reason::Unknown => NO_NAME,
        Reason::Operands => MISCOUNTED,
        Reason::RunningAbstract => RUNNING_REFUSED,
        Reason::Reference => REFERENCE_REFUSED,
        _ => OTHER,
    }
}

fn refusal_char(types: usize, refusal: Refusal) -> u8
    ensures { result ≡ refusal_char types refusal }
{
    let Refusal {
        reason,
        place: Place(place),
        used,
    } = refusal;
    if place == 0 && used == types {
        reason_char(reason)
    } else {
        OTHER
    }
}

// The character of an answer of a call on a table that had so many types before it; `new` is that of the entry after them.
#[tactic(auto, unfolding(crate::specs::Chars::char_of))]
pub fn char_of(types: usize, new: u8, answer: Answer) -> u8
    requires { types ≤ most_types }
    ensures { result ≡ char_of types new answer }
{
    match answer {
        Answer::Value(TypeNo(t), used) => value_char(types, new, t, used),
        Answer::NoValue(used) => silent_char(types, used),
        Answer::Refused(refusal) => refusal_char(types, refusal),
    }
}

// The character of an answer of a call on the table of 55 types, whose words are those after the call.
pub fn answer_char(words: &[u32], answer: Answer) -> u8
    ensures { result ≡ answer_char words.now answer }
{
    char_of(TYPES, new_char(words), answer)
}

// The number of a type by its character; below the first, a number that no type has.
// Stays: no `Option`, since each caller hands the number on as an operand, and numbers above 54, which no type has either, come of characters above the last.
pub fn type_no(c: u8) -> u32
    ensures upper_bound { result < 256 }
    ensures value { result ≡ type_no c }
{
    match c.checked_sub(FIRST) {
        Some(t) => u32::from(t),
        None => END,
    }
}
