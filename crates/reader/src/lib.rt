// A reader keeps the lent sheet and its place together. Each method takes it apart and calls a function of `frame` on the sheet and
// the place; `read`, whose parameters are plain, serves every caller that holds no reader.
#![tactic(auto)]

ghost use Rattle.std.specs.Prelude.{◌≡◌};
ghost use Rattle.frame.specs.Frame.{item_at, name_part, IsPart};
ghost use Rattle.reader.specs.Read.{start_of, step_of};

use answer::Place;
use frame::{HEADER, Placed};

// Stays: no Iterator, since what stands last is found again and again (`step_of`, `Visits`), and a reader that ends would have to keep besides that it did.
#[derive(Clone, Copy)]
pub struct Reader<'a> {
    pub sheet: &'a [u8],
    pub at: Place,
}

// What stands at a reader's place, and the reader that goes on: at the next item, or still where no item stands.
#[derive(Clone, Copy)]
pub struct Step<'a> {
    pub found: Placed,
    pub rest: Reader<'a>,
}

impl<'a> Reader<'a> {
    // A reader of any bytes, at the place where the first item of a sheet begins.
    pub fn start(sheet: &'a [u8]) -> Reader<'a>
        ensures { result ≡ start_of sheet.entry }
    {
        Reader {
            sheet,
            at: Place(HEADER),
        }
    }

    // The place at which it stands.
    pub fn at(self) -> Place
        ensures { result ≡ self.entry.at }
    {
        self.at
    }

    // What stands at its place, and the reader after it.
    pub fn next(self) -> Step<'a>
        ensures { result ≡ step_of self.entry }
    {
        let found = frame::item_at(self.sheet, self.at);
        Step {
            found,
            rest: Reader {
                sheet: self.sheet,
                at: found.next,
            },
        }
    }

    // The name of the call that stands at its place, as that part of the sheet; empty where no call stands.
    pub fn call_name(self) -> &'a [u8]
        ensures { IsPart self.entry.sheet (name_part self.entry.sheet.now self.entry.at.0) result }
    {
        frame::call_name(self.sheet, self.at)
    }
}

// What a reader finds at a place of a sheet.
pub fn read(sheet: &[u8], at: Place) -> Placed
    ensures { result ≡ item_at sheet.now at.0 }
{
    Reader { sheet, at }.next().found
}
