// A text to cells, in two passes: `draw` finds the sign of each code point and counts the cells, or finds the first refusal; `writing::write` writes the signs. So
// nothing is written before all is known to fit, and no code point is looked up twice. “ ” ‹ › are looked up as what they become, « » ‘ ’ (`plainly`).
// `transcribe_normal` is what other crates call; what the functions promise is specs/Passes.antt.
#![tactic(auto)]

ghost use Rattle.std.specs.Prelude.{◌≡◌, ◌≤◌, ◌*◌, length, take, Ok};
ghost use Rattle.rules.specs.Castilian.{castilian};
ghost use Rattle.rules.specs.Refusals.{longest_text};
ghost use Rattle.rules.proofs.Plain.{plainly};
ghost use Rattle.entries.specs.Numbers.{state_number};
ghost use Rattle.deeds.specs.Numbers.{way_index, fault_number};
ghost use Rattle.writing.specs.Joined.{joined};
ghost use Rattle.passes.specs.Middle.{Carried};
ghost use Rattle.passes.specs.Passes.{sign_by, alone_of, small_among_capitals, capital_among_small, fault_by, measured_of, Drawn, fitted_by, written_by, answer_of, out_of};

use deeds::{Fault, Way};
use entries::{Class, Entry, State};

// Why a print is refused; the lent row is then as it was. Paper 01's number and second number for each are given with the promise (`refusal_of` of the crate
// `transcriber`).
#[derive(Clone, Copy, PartialEq, Eq)]
pub enum Refusal {
    // the normalised text is above 4,096 code points: its length
    TooLong(usize),
    // a code point with no sign: its place
    NoSign(usize),
    // a pair mark against the pair rule: its place, or the text's length where something is open at the end
    PairBroken(usize),
    // º, ª or U+2044 outside the two forms: its place
    OutsideForm(usize),
    // print that would share its cells: its place
    SharesCells(usize),
    // the row needs more room than lent: the room needed
    NeedsRoom(usize),
}

// Where the first pass comes to before it has to ask: a place, the word of the code point there (none at the end), the state there and the count of the cells up to
// it. (So no code point is looked up twice.)
#[derive(Clone, Copy)]
pub struct Reached {
    pub place: usize,
    pub entry: Option<Entry>,
    pub state: State,
    pub cells: usize,
}

// "normalised text above 4,096 code points"
const LONGEST_TEXT: usize = 4096;

// A text of up to so many code points has an array of so many signs, which is cleared sooner than one for the longest.
pub const LINE: usize = 64;

const PARAGRAPH: usize = 512;

// The cells that go before a sign's own.
const DOTS_46: u8 = 40;

const DOTS_5: u8 = 16;

const DOTS_3456: u8 = 60;

// The sign of a code point that has a cell of its own and is written without: the full stop of an ordinal.
const NO_CELL: u32 = 0;

// The sign of a code point that is written in this way.
#[tactic(auto, unfolding(crate::specs::Passes::sign_by))]
fn sign_of(way: Way, entry: Entry) -> u32
    ensures { result ≡ sign_by (way_index way) entry.word }
{
    match way {
        Way::Bare => entry.sign(),
        Way::OneCapital => entries::sign::two_cells(DOTS_46, entry.first()),
        Way::AllCapitals => entries::sign::three_cells(DOTS_46, DOTS_46, entry.first()),
        Way::Separated => entries::sign::two_cells(DOTS_5, entry.first()),
        Way::FirstDigit => entries::sign::two_cells(DOTS_3456, entry.first()),
        Way::FirstLower => entries::sign::two_cells(DOTS_3456, entry.lower()),
        Way::Lower => entries::sign::one_cell(entry.lower()),
        Way::Silent => NO_CELL,
    }
}

// The sign of a capital alone, from its sign as the first of a run of capitals: 46 and its cell for 46-46 and its cell.
fn alone(sign: u32) -> u32
    ensures { result ≡ alone_of sign }
{
    entries::sign::two_cells(DOTS_46, entries::sign::third_of(sign))
}

// Is it a small letter in a run that is supposed to be of capitals only?
fn is_small_among_capitals(state: State, entry: Entry) -> bool
    ensures { result ≡ small_among_capitals (state_number state) entry.word }
{
    matches!(
        (state, entry.class()),
        (State::Capitals, Class::AToJ | Class::OtherSmall)
    )
}

// Is it a capital in a run that has a small letter?
fn is_capital_among_small(state: State, entry: Entry) -> bool
    ensures { result ≡ capital_among_small (state_number state) entry.word }
{
    matches!((state, entry.class()), (State::Mixed, Class::Capital))
}

// The refusal of a fault at a place.
#[tactic(auto, unfolding(crate::specs::Passes::fault_by))]
fn fault_of(fault: Fault, place: usize) -> Refusal
    ensures { result ≡ fault_by (fault_number fault) place }
{
    match fault {
        Fault::NoSign => Refusal::NoSign(place),
        Fault::OutsideForm => Refusal::OutsideForm(place),
        Fault::SharesCells => Refusal::SharesCells(place),
    }
}

// The signs from a place on, as long as nothing is asked: of code points that are written as usual, with their own cells alone, and of capitals in a run that has
// a small letter, each with a 46 of its own. Neither is a pair mark. (Most of a text is such, so it has a loop of its own.)
fn draw_usual(text: &[u32], signs: &mut [u32], from: usize, begun: State, counted: usize) -> Reached
    requires { (length text.now ≤ longest_text) × (length text.now ≤ length signs.old) × (from ≤ length text.now) × (counted ≤ 3 * from) }
    ensures { Carried castilian (plainly text.now) signs.old signs.new (state_number begun) counted from result }
{
    let mut state = begun;
    let mut n: usize = counted;
    for i in from..text.len() {
        let entry = entries::entry_of(text[i]);
        if entry.is_usual(state) {
            let sign = entry.sign();
            signs[i] = sign;
            n += entries::sign::count_of(sign);
            state = entry.then();
        } else if is_capital_among_small(state, entry) {
            signs[i] = sign_of(Way::OneCapital, entry);
            n += 2;
        } else {
            return Reached {
                place: i,
                entry: Some(entry),
                state,
                cells: n,
            };
        }
    }
    Reached {
        place: text.len(),
        entry: None,
        state,
        cells: n,
    }
}

// The first pass: the sign of each code point, which is its cells with their count, and the count of them all; or the first refusal. What follows a place
// is read only where the table has a question. "If it has two letters or more and all are capitals, 46-46 stands once before it. Otherwise every capital in it has
// 46 before it.": a run that begins with two capitals is supposed to be of capitals only, and drawn so. Where a small letter then stands in it, the sign of its first
// capital is made anew, and the run is drawn again from behind that. (So a run of capitals only is read once: docs/DECISIONS.md, 31. The state is CAPITALS at the head
// of the loop only where such a run has just begun, so that its first capital is at i - 1. Since the loop goes back, it is no `for`.)
fn draw(text: &[u32], signs: &mut [u32]) -> Result<usize, Refusal>
    requires { (length text.now ≤ longest_text) × (length text.now ≤ length signs.old) }
    ensures { (result ≡ measured_of castilian (plainly text.now)) × Drawn result castilian (plainly text.now) (take (length text.now) signs.new) }
{
    let mut opened: usize = 0;
    let mut state = State::Free;
    let mut n: usize = 0;
    let mut i: usize = 0;
    while i < text.len() {
        let reached = draw_usual(text, signs, i, state, n);
        match reached.entry {
            None => {
                i = reached.place;
                n = reached.cells;
                state = reached.state;
            }
            Some(entry) if is_small_among_capitals(reached.state, entry) => {
                signs[i - 1] = alone(signs[i - 1]);
                n -= 1;
                state = State::Mixed;
            }
            Some(entry) => {
                i = reached.place;
                if let Some(mark) = entry.mark() {
                    let Some(now_open) = pairs::pairs_after(opened, mark) else {
                        return Err(Refusal::PairBroken(i));
                    };
                    opened = now_open;
                }
                let told = deeds::deed_of(reached.state, entry.class());
                let act = match turns::settled(text, i + 1, told) {
                    Ok(act) => act,
                    Err(fault) => return Err(fault_of(fault, i)),
                };
                let sign = sign_of(act.way(), entry);
                signs[i] = sign;
                n = reached.cells + entries::sign::count_of(sign);
                state = act.then();
                i += 1;
            }
        }
    }
    if opened == 0 {
        Ok(n)
    } else {
        Err(Refusal::PairBroken(i))
    }
}

// Signs of n cells, written if they fit.
fn fitted(signs: &[u32], row: &mut [u8], n: usize) -> Result<usize, Refusal>
    requires { n ≡ length (joined signs.now) }
    ensures { (result ≡ fitted_by (Ok n) (length row.old)) × (row.new ≡ written_by (Ok n) (joined signs.now) row.old) }
{
    if row.len() < n {
        return Err(Refusal::NeedsRoom(n));
    }
    Ok(writing::write(signs, row))
}

// A text that is normalised, or that is so with « for “, through an array of N signs, which is one for each of its code points at least.
fn transcribe_with<const N: usize>(text: &[u32], row: &mut [u8]) -> Result<usize, Refusal>
    requires { (length text.now ≤ N) × (N ≤ longest_text) }
    ensures { (result ≡ answer_of castilian (plainly text.now) (length row.old)) × (row.new ≡ out_of castilian (plainly text.now) row.old) }
{
    let mut signs = [0u32; N];
    let n = draw(text, &mut signs)?;
    fitted(&signs[..text.len()], row, n)
}

// The same, with an array that is long enough, so that a caller lends nothing but the text and the row. The answer is the count of cells written. (It is drawn into
// its callers, since an answer that is handed on through memory takes longer than a short line does.)
#[inline(always)]
pub fn transcribe_normal(text: &[u32], row: &mut [u8]) -> Result<usize, Refusal>
    requires { length text.now ≤ longest_text }
    ensures { (result ≡ answer_of castilian (plainly text.now) (length row.old)) × (row.new ≡ out_of castilian (plainly text.now) row.old) }
{
    if text.len() <= LINE {
        transcribe_with::<LINE>(text, row)
    } else if text.len() <= PARAGRAPH {
        transcribe_with::<PARAGRAPH>(text, row)
    } else {
        transcribe_with::<LONGEST_TEXT>(text, row)
    }
}
