// The inner step of reading: the sign that starts at a place of a row, from the mode and the open pairs that the signs before it leave. Most cells are read
// as usual (`usual`), as their small letter, their sign or their pair mark; where the mode asks for another reading (`sign_at`), the table says which
// (tools/readings.txt). Signs that follow one another alike have quick readings besides (`run_at`, `dash_at`, `owed_at`); of a cell that is its letter or its sign in
// a word and where nothing is begun, a bit tells it (`is_alone`, `mode_behind`).
#![tactic(auto)]

ghost use Rattle.std.specs.Prelude.{Some, None, ℕ, cond, eqb, true, false, ◌≡◌, ◌+◌, ◌<◌, ◌≤◌, length, get_or};
ghost use Rattle.rules.specs.Cells.{last_cell};
ghost use Rattle.rules.specs.Pairs.{kinds};
ghost use Rattle.rules.specs.Refusals.{longest_row};
ghost use Rattle.rules.proofs.Machine.{at_rest};
ghost use Rattle.pairs.specs.Opened.{open_states};
ghost use Rattle.readings.specs.Modes.{mode_of, number_of, mode_at, free, owing, num, mid, dash};
ghost use Rattle.readings.specs.Acts.{deed_number};
ghost use Rattle.readings.specs.Fields.{point_in, kind_in, then_in, usual_in, field_in, run_point, no_cell, cell_of};
ghost use Rattle.readings.specs.Words.{word_of};
ghost use Rattle.readings.specs.Readings.{no_point, shown, a_step, usual_by, mark_step, digit_cell, step_of, after_capital, capital_by, number_by, percent_by, prefix_by, asked_by, step_at};
ghost use Rattle.signs.specs.Among.{cell_among, lower_cell, alone_cell};
ghost use Rattle.signs.specs.Runs.{between, no_run, field_of, run_of, home_of, Quick, InRun};

use readings::cells::{
    D1, D2, D12, D14, D15, D23, D24, D25, D26, D35, D36, D46, D124, D125, D145, D235, D236, D245,
    D256, D356, D1245, D2356, LETTERS_ALONE, SIGNS_ALONE,
};
use readings::{
    Deed, INNER_QUOTES, MODE_PLACES, Mode, POINT_BITS, POINT_PLACES, Step, capital_in, cells,
    class_in, closer_of, deed_of, figure_in, kind_in, lower_in, mode_at, opener_of, point_in,
    shown, then_in,
};

// How many bits a cell's word has.
const WORD_BITS: usize = 64;

// Where the field of a run stands (readings/src/cells.rt): numbers, since a word is shifted by them.
const FIGURES: usize = 0;

const CAPITALS: usize = 16;

const LOWERS: usize = 32;

// And where that of the points and commas between two digits stands.
const BETWEEN: usize = 48;

// The cells of the digits 1 to 9 and 0, and those of the lower digits: a bit for each.
const DIGIT_CELLS: u64 = (1 << D1)
    + (1 << D12)
    + (1 << D14)
    + (1 << D145)
    + (1 << D15)
    + (1 << D124)
    + (1 << D1245)
    + (1 << D125)
    + (1 << D24)
    + (1 << D245);

const LOWER_CELLS: u64 = (1 << D2)
    + (1 << D23)
    + (1 << D25)
    + (1 << D256)
    + (1 << D26)
    + (1 << D235)
    + (1 << D2356)
    + (1 << D236)
    + (1 << D35)
    + (1 << D356);

// How many bits the number of a mode has.
const MODE_BITS: usize = 4;

// The mode after a capital that has a 46 of its own, for each mode before it: `Lone` where a run begins, and 0, which is `Free`, where no such capital stands.
// (As one number, since of a `match` the compiler would make jumps, which the processor cannot foresee.)
const AFTER_CAPITAL: u64 = ((Mode::Lone as u64) << (Mode::Free as usize * MODE_BITS))
    + ((Mode::Owing as u64) << (Mode::Lone as usize * MODE_BITS))
    + ((Mode::Mixed as u64) << (Mode::Mixed as usize * MODE_BITS))
    + ((Mode::Lone as u64) << (Mode::End as usize * MODE_BITS))
    + ((Mode::Lone as u64) << (Mode::Hyphen as usize * MODE_BITS))
    + ((Mode::Lone as u64) << (Mode::Fem as usize * MODE_BITS))
    + ((Mode::Lone as u64) << (Mode::Percent as usize * MODE_BITS))
    + ((Mode::Owing as u64) << (Mode::Owing as usize * MODE_BITS))
    + ((Mode::Lone as u64) << (Mode::Dash as usize * MODE_BITS))
    + ((Mode::Lone as u64) << (Mode::Num as usize * MODE_BITS))
    + ((Mode::Lone as u64) << (Mode::Under as usize * MODE_BITS));

// A lower digit is its digit with every dot a row lower, which counts twice as much: 14 counts 9, and 25 counts 18.
const LOWERED: u8 = 2;

// No cell: past the row's end, or where the byte is none. (No Option: what is read is compared with a cell or looked up, and an Option would be taken apart at each place.)
const NO_CELL: u8 = 64;

// "Cells are bytes 0 to 63"
pub const LAST_CELL: u8 = 63;

// The code points that a deed or a quick reading gives by itself.
const FULL_STOP: u32 = 0x2e; // .

const THE_ONE: u32 = 0x31; // 1

const THE_HYPHEN: u32 = 0x2d; // -

const THE_DASH: u32 = 0x2014; // U+2014

const BAR: u32 = 0x2044; // U+2044

const FEMININE: u32 = 0xaa; // ª

const MASCULINE: u32 = 0xba; // º

const GREATER: u32 = 0x3e; // >

const THE_PERCENT: u32 = 0x25; // %

const OPENING_QUOTE: u32 = 0x2018; // ‘

const PER_MILLE: u32 = 0x2030; // ‰

// Is it read as usual in this mode?
pub fn is_usual(word: u64, mode: Mode) -> bool
    ensures { result ≡ usual_in word (number_of mode) }
{
    (word >> mode.number()) % 2 == 1
}

// The cell at a place, and NO_CELL past the row's end or where the byte is no cell: no caller tests the length.
fn cell_at(row: &[u8], place: usize) -> u8
    ensures { result ≡ cell_of row.now place }
{
    if place < row.len() {
        let cell = row[place];
        if cell <= LAST_CELL {
            return cell;
        }
    }
    NO_CELL
}

// The byte at a place, and NO_CELL past the row's end. (For a look-up, which gives nothing for a byte that is no cell.)
fn byte_at(row: &[u8], place: usize) -> u8
    ensures { result ≡ get_or row.now place no_cell }
{
    if place < row.len() {
        return row[place];
    }
    NO_CELL
}

// A sign of one code point.
fn sign(point: u32, next: usize, mode: Mode, opened: usize) -> Step
    ensures { result ≡ a_step no_point point next (number_of mode) opened }
{
    Step {
        lead: None,
        point,
        next,
        mode,
        opened,
    }
}

// "An opener stands only where its kind is closed, a closer only where it is open": so the row says which it is.
fn mark(kind: usize, next: usize, opened: usize) -> Step
    requires { (kind < kinds) × (opened < open_states) }
    ensures { result ≡ mark_step next opened kind }
{
    let point = if pairs::is_open(opened, kind) {
        closer_of(kind)
    } else {
        opener_of(kind)
    };
    sign(point, next, Mode::Free, pairs::turned(opened, kind))
}

// Is the cell one of these? (To compare what a look-up gives with NO_POINT would be compiled to a jump for each cell.)
fn is_among(these: u64, cell: u8) -> bool
    ensures { result ≡ cell_among these cell }
{
    if LAST_CELL < cell {
        return false;
    }
    (these >> (cell as usize % WORD_BITS)) % 2 == 1
}

// Is the cell that of a digit?
fn is_digit(cell: u8) -> bool
    ensures { result ≡ digit_cell cell }
{
    is_among(DIGIT_CELLS, cell)
}

// Is it that of a lower digit?
fn is_lower(cell: u8) -> bool
    ensures { result ≡ lower_cell cell }
{
    is_among(LOWER_CELLS, cell)
}

// Is the cell read as usual, as a small letter or a sign, both where nothing is begun and in a run with a small letter? (The caller knows that it is a cell, so
// that nothing else is asked.)
pub fn is_alone(cell: u8) -> bool
    requires { cell ≤ last_cell }
    ensures { result ≡ alone_cell cell }
{
    ((LETTERS_ALONE + SIGNS_ALONE) >> (cell as usize % WORD_BITS)) % 2 == 1
}

// The mode behind such a cell.
pub fn mode_behind(cell: u8) -> Mode
    requires { (cell ≤ last_cell) × (alone_cell cell ≡ true) }
    ensures { number_of result ≡ then_in (word_of cell) }
{
    if (LETTERS_ALONE >> (cell as usize % WORD_BITS)) % 2 == 1 {
        Mode::Mixed
    } else {
        Mode::Free
    }
}

// The mode after a capital that has a 46 of its own, where such a one stands.
fn after_capital(mode: Mode) -> Option<Mode>
    ensures { result ≡ cond (eqb (after_capital (number_of mode)) free) None (Some (mode_at (after_capital (number_of mode)))) }
{
    match mode_at((AFTER_CAPITAL >> (mode.number() * MODE_BITS)) as usize % MODE_PLACES) {
        Mode::Free => None,
        after => Some(after),
    }
}

// After 46: a letter is a capital, and the mode before says the mode after it; where a run begins, 46 again and a letter begin one of capitals only; 2 makes >,
// where no small letter is owed. (The capital is looked up in one place, so that the compiler draws the look-up in.)
#[tactic(auto, using(crate::proofs::Cases::none_shown, crate::proofs::Cases::some_shown), unfolding(readings::specs::Readings::capital_by, rules::specs::Cells::dots))]
fn capital(row: &[u8], at: usize, mode: Mode, opened: usize) -> Option<Step>
    requires { (length row.now ≤ longest_row) × (at < length row.now) }
    ensures { result ≡ step_of at opened (capital_by (number_of mode) (cell_of row.now (at + 1)) (cell_of row.now (at + 2))) }
{
    let second = cell_at(row, at + 1);
    if second == D2 {
        if mode == Mode::Owing {
            return None;
        }
        return Some(sign(GREATER, at + 2, Mode::Free, opened));
    }
    let letter_at = if second == D46 { at + 2 } else { at + 1 };
    let letter = shown(capital_in(word_of(cell_at(row, letter_at))))?;
    let after = after_capital(mode)?;
    if second != D46 {
        return Some(sign(letter, at + 2, after, opened));
    }
    if after == Mode::Lone {
        return Some(sign(letter, at + 3, Mode::Whole1, opened));
    }
    None
}

// After 3456: a digit begins a number, a lower digit an ordinal or a fraction. (Both are looked up in one table, so that there is no jump for the
// processor to foresee.)
#[tactic(auto, using(crate::proofs::Cases::inside_digit, crate::proofs::Cases::inside_lowered), unfolding(readings::specs::Readings::number_by))]
fn number(row: &[u8], at: usize, opened: usize) -> Option<Step>
    requires { (length row.now ≤ longest_row) × (at < length row.now) }
    ensures { result ≡ step_of at opened (number_by (word_of (cell_of row.now (at + 1)))) }
{
    let second = cell_at(row, at + 1);
    if is_digit(second) {
        return Some(sign(cells::inside_number(second), at + 2, Mode::Num, opened));
    }
    if is_lower(second) {
        return Some(sign(
            cells::inside_number(second / LOWERED),
            at + 2,
            Mode::Low,
            opened,
        ));
    }
    None
}

// After 456-356: 356 again makes ‰.
#[tactic(auto, unfolding(readings::specs::Readings::percent_by, rules::specs::Cells::dots))]
fn percent(row: &[u8], at: usize, opened: usize) -> Step
    requires { (length row.now ≤ longest_row) × (at < length row.now) }
    ensures { Some result ≡ step_of at opened (percent_by (cell_of row.now (at + 2))) }
{
    if cell_at(row, at + 2) == D356 {
        return sign(PER_MILLE, at + 3, Mode::Free, opened);
    }
    sign(THE_PERCENT, at + 2, Mode::Percent, opened)
}

// A field of 16 bits of a word: a code point, if it has one. (A place is below 64, so that the remainder is the place.)
fn field_in(word: u64, at: usize) -> Option<u32>
    ensures { result ≡ shown (field_in word at) }
{
    shown(((word >> (at % WORD_BITS)) % POINT_PLACES) as u32)
}

// A sign that begins with a cell that is none by itself and whose word is at hand. "A lower-case a to j directly after a number's last digit has cell 5 before it."
// (Of ‘ and ’, which have the same cells, the look-up has the opener.)
#[tactic(auto, using(crate::proofs::Cases::digit_letter, crate::proofs::Cases::none_shown, crate::proofs::Cases::some_shown), unfolding(readings::specs::Readings::prefix_by, readings::specs::Readings::longer_by, readings::specs::Readings::two_of))]
fn prefixed(row: &[u8], at: usize, word: u64, deed: Deed, opened: usize) -> Option<Step>
    requires { (length row.now ≤ longest_row) × (at < length row.now) × (opened < open_states) }
    ensures { result ≡ step_of at opened (prefix_by (deed_number deed) word (cell_of row.now (at + 1)) (cell_of row.now (at + 2))) }
{
    let second = cell_at(row, at + 1);
    if deed == Deed::Separates {
        if is_digit(second) {
            let letter = cells::letter_of(second);
            return Some(sign(letter, at + 2, Mode::Mixed, opened));
        }
    }
    let point = field_in(cells::second_word(second), kind_in(word) * POINT_BITS)?;
    Some(match point {
        THE_PERCENT => percent(row, at, opened),
        OPENING_QUOTE => mark(INNER_QUOTES, at + 2, opened),
        _ => sign(point, at + 2, Mode::Free, opened),
    })
}

// What the cells that follow decide; `word` is that of the cell at the place.
#[tactic(auto, unfolding(readings::specs::Readings::asked_by, rules::specs::Cells::dots))]
fn asked(row: &[u8], at: usize, word: u64, mode: Mode, deed: Deed, opened: usize) -> Option<Step>
    requires { (length row.now ≤ longest_row) × (at < length row.now) × (opened < open_states) }
    ensures { result ≡ step_of at opened (asked_by (number_of mode) (deed_number deed) word (cell_of row.now (at + 1)) (cell_of row.now (at + 2))) }
{
    match deed {
        Deed::Point => {
            let mode_after = if is_digit(cell_at(row, at + 1)) {
                Mode::Mid
            } else {
                Mode::End
            };
            Some(sign(point_in(word), at + 1, mode_after, opened))
        }
        Deed::OneOrFeminine => {
            if is_digit(cell_at(row, at + 1)) {
                Some(Step {
                    lead: Some(BAR),
                    point: THE_ONE,
                    next: at + 1,
                    mode: Mode::Under1,
                    opened,
                })
            } else {
                Some(Step {
                    lead: Some(FULL_STOP),
                    point: FEMININE,
                    next: at + 1,
                    mode: Mode::Fem,
                    opened,
                })
            }
        }
        Deed::HyphenOrDash => {
            if cell_at(row, at + 1) == D36 {
                Some(sign(THE_DASH, at + 2, Mode::Dash, opened))
            } else {
                Some(sign(THE_HYPHEN, at + 1, Mode::Hyphen, opened))
            }
        }
        Deed::DashOnly => {
            if cell_at(row, at + 1) == D36 {
                Some(sign(THE_DASH, at + 2, Mode::Dash, opened))
            } else {
                None
            }
        }
        Deed::NumberSign => number(row, at, opened),
        Deed::Capital => capital(row, at, mode, opened),
        _ => prefixed(row, at, word, deed, opened),
    }
}

// The word of a cell.
pub fn word_of(cell: u8) -> u64
    ensures { result ≡ word_of cell }
{
    cells::word_of(cell)
}

// The sign of a cell that is read as usual: its small letter or sign, or its pair mark.
pub fn usual(word: u64, at: usize, opened: usize) -> Step
    requires { (at < longest_row) × (opened < open_states) × (point_in word ≡ no_point → kind_in word < kinds) }
    ensures { Some result ≡ step_of at opened (usual_by word) }
{
    match shown(point_in(word)) {
        Some(point) => sign(point, at + 1, then_in(word), opened),
        None => mark(kind_in(word), at + 1, opened),
    }
}

// The sign that starts at a place of the row, where the cell there, whose word is at hand, is not read as usual.
pub fn sign_at(row: &[u8], at: usize, word: u64, mode: Mode, opened: usize) -> Option<Step>
    requires { (length row.now ≤ longest_row) × (at < length row.now) × (opened < open_states) × (word ≡ word_of (cell_of row.now at)) × (usual_in word (number_of mode) ≡ false) }
    ensures { result ≡ step_at row.now at (number_of mode) opened }
{
    let deed = deed_of(mode, class_in(word));
    match deed {
        Deed::NoSign => None,
        Deed::Digit => Some(sign(figure_in(word), at + 1, Mode::Num, opened)),
        Deed::DigitUnder => Some(sign(figure_in(word), at + 1, Mode::Under, opened)),
        Deed::CapitalOfMany => Some(sign(capital_in(word), at + 1, Mode::Whole2, opened)),
        Deed::LowerDigit => Some(sign(lower_in(word), at + 1, Mode::Low, opened)),
        Deed::Denominator => Some(Step {
            lead: Some(BAR),
            point: figure_in(word),
            next: at + 1,
            mode: Mode::Under,
            opened,
        }),
        Deed::MasculineMark => Some(Step {
            lead: Some(FULL_STOP),
            point: MASCULINE,
            next: at + 1,
            mode: Mode::Free,
            opened,
        }),
        _ => asked(row, at, word, mode, deed, opened),
    }
}

// The mode by which a capital is read, by its number. Past the modes the last four bits say what the capital leaves; but a small letter is owed in Owing alone, so where the bits are those of Owing
// it is Lone, in which a capital leaves the same and > may stand.
fn mode_before(number: usize) -> Mode
    ensures { (second : ℕ) (third : ℕ) → capital_by (number_of result) second third ≡ capital_by number second third }
{
    if number < MODE_PLACES {
        return mode_at(number);
    }
    match mode_at(number % MODE_PLACES) {
        Mode::Owing => Mode::Lone,
        mode => mode,
    }
}

// The same by the mode's number, and for any number, as `step_at` is: past the modes its last four bits say the deed. (They may say that a cell is read as usual where the number does not; then
// it is looked up as the first of two.)
pub fn sign_by_number(row: &[u8], at: usize, word: u64, mode: usize, opened: usize) -> Option<Step>
    requires { (length row.now ≤ longest_row) × (at < length row.now) × (opened < open_states) × (word ≡ word_of (cell_of row.now at)) × (usual_in word mode ≡ false) }
    ensures { result ≡ step_at row.now at mode opened }
{
    let its = mode_at(mode % MODE_PLACES);
    match deed_of(its, class_in(word)) {
        Deed::AsUsual => prefixed(row, at, word, Deed::AsUsual, opened),
        Deed::Capital => capital(row, at, mode_before(mode), opened),
        _ => sign_at(row, at, word, its, opened),
    }
}

// The run that a mode is in, by its field: more of its cells may follow, each one code point. The points and commas inside a number are in its run.
#[tactic(auto, unfolding(crate::specs::Runs::run_of))]
pub fn run_of(mode: Mode) -> Option<usize>
    ensures { result ≡ field_of (run_of (number_of mode)) }
{
    match mode {
        Mode::Num | Mode::Mid | Mode::Under => Some(FIGURES),
        Mode::Whole2 => Some(CAPITALS),
        Mode::Low => Some(LOWERS),
        _ => None,
    }
}

// The mode that a digit or a letter of its run leaves: the mode itself, and behind a point inside a number that of the number.
#[tactic(auto, unfolding(crate::specs::Runs::home_of))]
fn home_of(mode: Mode) -> Mode
    ensures { number_of result ≡ home_of (number_of mode) }
{
    if mode == Mode::Mid { Mode::Num } else { mode }
}

// A quick reading of a point or a comma behind a digit of a number: "any single full stop or comma that stands directly between two digits", so a digit has to
// follow. Where none does it says nothing.
#[tactic(auto, using(crate::proofs::Cases::point_step, crate::proofs::Cases::some_shown))]
fn point_inside(row: &[u8], at: usize, point: u32, opened: usize) -> Option<Step>
    requires { (length row.now ≤ longest_row) × (at < length row.now) × (Some point ≡ shown (run_point (word_of (cell_of row.now at)) between)) }
    ensures { Quick row.now at num mid opened result }
{
    let follows = cell_at(row, at + 1);
    if is_digit(follows) {
        return Some(sign(point, at + 1, Mode::Mid, opened));
    }
    None
}

// A quick reading of a cell of the run that the mode is in: a digit or a letter, or a point inside a number.
pub fn run_at(row: &[u8], at: usize, run: usize, mode: Mode, opened: usize) -> Option<Step>
    requires { (length row.now ≤ longest_row) × (at < length row.now) × (run ≡ run_of (number_of mode)) × (run < no_run) }
    ensures { InRun row.now at (number_of mode) opened result }
{
    let cell = row[at];
    if LAST_CELL < cell {
        return None;
    }
    let word = cells::run_word(cell);
    if let Some(point) = field_in(word, run) {
        return Some(sign(point, at + 1, home_of(mode), opened));
    }
    match mode {
        Mode::Num => point_inside(row, at, field_in(word, BETWEEN)?, opened),
        _ => None,
    }
}

// A quick reading of U+2014 behind another.
#[tactic(auto, using(crate::proofs::Cases::dash_step), unfolding(rules::specs::Cells::dots))]
pub fn dash_at(row: &[u8], at: usize, opened: usize) -> Option<Step>
    requires { (length row.now ≤ longest_row) × (at < length row.now) }
    ensures { Quick row.now at dash dash opened result }
{
    if cell_at(row, at) == D36 && cell_at(row, at + 1) == D36 {
        return Some(sign(THE_DASH, at + 2, Mode::Dash, opened));
    }
    None
}

// A quick reading of a capital with its 46 behind another.
pub fn owed_at(row: &[u8], at: usize, opened: usize) -> Option<Step>
    requires { (length row.now ≤ longest_row) × (at < length row.now) }
    ensures { Quick row.now at owing owing opened result }
{
    if row[at] != D46 {
        return None;
    }
    let letter = shown(capital_in(word_of(byte_at(row, at + 1))))?;
    Some(sign(letter, at + 2, Mode::Owing, opened))
}

// May a text end in this mode: is what was begun whole?
#[tactic(auto, using(crate::proofs::Cases::at_rest_there), unfolding(rules::proofs::Machine::at_rest))]
pub fn rests(mode: Mode) -> bool
    ensures { result ≡ at_rest (mode_of (number_of mode)) }
{
    match mode {
        Mode::Owing | Mode::Whole1 | Mode::Low | Mode::Under1 | Mode::Mid => false,
        _ => true,
    }
}
