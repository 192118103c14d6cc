// The proofing screen's reader: it holds the row that it borrows and a place, and it copies nothing. What a sign is, and which rows are
// refused, is `stepper::step`'s to say; here a place is only held, stepped from and moved.
// Nothing is decided in the methods of the struct: whatever is to be decided goes into a function over plain parameters.
#![tactic(auto)]

ghost use Rattle.std.specs.Prelude.{◌≡◌};
ghost use Rattle.rules.specs.Castilian.{castilian};
ghost use Rattle.stepper.specs.Promise.{Shows};
ghost use Rattle.screen.specs.Places.{place_after};

use reader::Refusal;
use stepper::Sign;

// A row, lent, and a place of it.
#[derive(Clone, Copy)]
pub struct Reader<'a> {
    pub row: &'a [u8],
    pub place: usize,
}

// The place of a row's first cell: places "count from 0".
const START: usize = 0;

impl<'a> Reader<'a> {
    // A reader at the start of a row.
    pub fn new(row: &'a [u8]) -> Reader<'a>
        ensures { (result.row ≡ row.entry) × (result.place ≡ 0) }
    {
        Reader { row, place: START }
    }

    // "each step gives the print of the next sign and the place after it."
    // Two wrong programs that the promise shuts out: "a screen that does the reading in its first step and only pretends after it", and one whose answer depends on
    // the steps before.
    pub fn next(self) -> Result<Option<Sign>, Refusal>
        ensures { Shows castilian self.entry.row.now self.entry.place result }
    {
        stepper::step(self.row, self.place)
    }

    // The same row, at another place.
    pub fn moved(self, place: usize) -> Reader<'a>
        ensures { (result.row ≡ self.entry.row) × (result.place ≡ place) }
    {
        Reader { place, ..self }
    }
}

// Where to move after what was shown at a place: to "the place after it" if it was a sign; else "the place stays".
// (A function: what is shown is a Result, which can get no methods here.)
pub fn place_after(shown: Result<Option<Sign>, Refusal>, place: usize) -> usize
    ensures { result ≡ place_after shown place }
{
    match shown {
        Ok(Some(sign)) => sign.next,
        Ok(None) => place,
        Err(_) => place,
    }
}

// The first step of a row.
pub fn first(row: &[u8]) -> Result<Option<Sign>, Refusal>
    ensures { Shows castilian row.now 0 result }
{
    Reader::new(row).next()
}

// The step at a place, by a reader that was moved there.
pub fn shown_at(row: &[u8], place: usize) -> Result<Option<Sign>, Refusal>
    ensures { Shows castilian row.now place result }
{
    Reader::new(row).moved(place).next()
}
