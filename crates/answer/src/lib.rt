// The one answer that every call gives, and the numbers of its refusals.
#![tactic(auto)]

ghost use Rattle.std.specs.Prelude.{◌≡◌};
ghost use Rattle.answer.specs.Answer.{reason_no, lacking_of, used_of, has_value, marked_by, Accepted, WithoutValue, RefusedWith};

// The number of a table entry.
#[derive(Clone, Copy, Debug, PartialEq, Eq)]
pub struct TypeNo(pub usize);

// An offset in a sheet.
#[derive(Clone, Copy, Debug, PartialEq, Eq)]
pub struct Place(pub usize);

// Why a call is refused, in the order of the refusal numbers. For want of room: how many entries lack.
#[derive(Clone, Copy, Debug, PartialEq, Eq)]
pub enum Reason {
    Unsound,
    NoSuchType,
    Reference,
    Unknown,
    Template,
    Count,
    Operands,
    NoOverload,
    NoRoom(u32),
    Framing,
    Stack,
    TooLong,
    RunningAbstract,
}

// The refusal number of a reason.
impl From<Reason> for u8 {
    ghost from_gives = { λ r k. k ≡ reason_no r };

    fn from(r: Reason) -> u8 {
        match r {
            Reason::Unsound => 1,
            Reason::NoSuchType => 2,
            Reason::Reference => 3,
            Reason::Unknown => 4,
            Reason::Template => 5,
            Reason::Count => 6,
            Reason::Operands => 7,
            Reason::NoOverload => 8,
            Reason::NoRoom(_) => 9,
            Reason::Framing => 10,
            Reason::Stack => 11,
            Reason::TooLong => 12,
            Reason::RunningAbstract => 14,
        }
    }
}

// A refusal: why, at which place, and the used count as it stands.
#[derive(Clone, Copy, Debug, PartialEq, Eq)]
pub struct Refusal {
    pub reason: Reason,
    pub place: Place,
    pub used: usize,
}

// What a call answers: a type or no value, each with the used count, or a refusal.
// Stays: no Result of an Option, since all three cases are answers of document 01, each with its numbers (`numbers_of`), and none is handed on by `?`.
#[derive(Clone, Copy, Debug, PartialEq, Eq)]
pub enum Answer {
    Value(TypeNo, usize),
    NoValue(usize),
    Refused(Refusal),
}

// An answer, and whether its value is known only when running; false where it has no value.
// Stays: the mark stands beside the answer, since `GaveMarked` of table/specs/Placing.antt says of each host's call the two apart.
#[derive(Clone, Copy, Debug, PartialEq, Eq)]
pub struct Typed {
    pub answer: Answer,
    pub running: bool,
}

pub fn accepted(t: TypeNo, used: usize) -> Answer
    ensures { Accepted t used result }
{
    Answer::Value(t, used)
}

pub fn no_value(used: usize) -> Answer
    ensures { WithoutValue used result }
{
    Answer::NoValue(used)
}

pub fn refused(reason: Reason, place: Place, used: usize) -> Answer
    ensures { RefusedWith reason place used result }
{
    Answer::Refused(Refusal {
        reason,
        place,
        used,
    })
}

// How many entries lack, which only the refusal for want of room tells.
pub fn lacking_of(r: Reason) -> u32
    ensures { result ≡ lacking_of r }
{
    match r {
        Reason::NoRoom(k) => k,
        _ => 0,
    }
}

// The used count that an answer tells.
pub fn used_of(a: Answer) -> usize
    ensures { result ≡ used_of a }
{
    match a {
        Answer::Value(_, n) => n,
        Answer::NoValue(n) => n,
        Answer::Refused(r) => r.used,
    }
}

// Whether an answer has a value.
fn has_value(a: Answer) -> bool
    ensures { result ≡ has_value a }
{
    matches!(a, Answer::Value(_, _))
}

// An answer with the mark of its value.
pub fn marked(a: Answer, running: bool) -> Typed
    ensures { result ≡ marked_by running a }
{
    Typed {
        answer: a,
        running: has_value(a) & running,
    }
}
