// What is read at a place of a row, as the code has it: the answer that a step gives; the modes, the classes of cells and the deeds; the word of a
// cell by its fields (`cells`); the deed of each mode and class (`table`); the marks of the pairs. What is done with these is crates/signs.
// A new sign is a line of crates/rules/specs/Castilian.antt, printed again; a new mode, deed or class is added in tools/readings.txt, and as a variant here
// and a number in specs/ (`number_of`, `deed_number`, `class_number`); a class besides as an arm of `class_in`, and a mode as an arm of `mode_at`, a place in `code_modes` of specs/Modes, a case
// of each law that goes mode by mode (proofs/Numbers, Cases of crates/signs), and where it is said what a capital leaves in each (`capital_modes` of specs/Readings, AFTER_CAPITAL of crates/signs);
// a new pair kind is also a mark of OPENERS and one of CLOSERS, and one whose marks have two cells, as ‘ and ’ have, an arm of `prefixed` of crates/signs.
#![tactic(auto)]

ghost use Rattle.std.specs.Prelude.{◌≡◌, leb};
ghost use Rattle.readings.specs.Modes.{owing, number_of, mode_at};
ghost use Rattle.readings.specs.Acts.{deed_number};
ghost use Rattle.readings.specs.Fields.{class_number, deed_of, class_in, point_in, capital_in, figure_in, lower_in, kind_in, then_in};
ghost use Rattle.readings.specs.Words.{word_of};
ghost use Rattle.readings.specs.Readings.{shown, opener_of, closer_of};

pub mod cells;
mod table;

// What a step gives where a sign starts: its print (`lead` is a code point that has no cell and goes before `point`, if it has one), the place after it, and what
// it leaves: the mode and the open pairs.
#[derive(Clone, Copy)]
pub struct Step {
    pub lead: Option<u32>,
    pub point: u32,
    pub next: usize,
    pub mode: Mode,
    pub opened: usize,
}

// Where a reader stands between two signs: what the signs before a place leave.
#[derive(Clone, Copy, PartialEq, Eq)]
pub enum Mode {
    // nothing is begun
    Free,
    // after a capital that begins a run
    Lone,
    // in a run with a small letter
    Mixed,
    // after 46-46 and one letter: another must follow
    Whole1,
    // in a denominator that is 1 so far: a digit must follow
    Under1,
    // after a point or comma that ends a number
    End,
    // after a hyphen
    Hyphen,
    // after ª
    Fem,
    // after %
    Percent,
    // from here on more signs of the same sort may follow: after two capitals or more, each with its 46: a small letter must follow
    Owing,
    // after U+2014
    Dash,
    // after 46-46 and two letters or more
    Whole2,
    // in an ordinary number
    Num,
    // in the lower digits of an ordinal or a fraction: its end must follow
    Low,
    // in any other denominator
    Under,
    // after a point or comma inside a number: a digit must follow
    Mid,
}

impl Mode {
    // Its number, as the fields of words have it. (The way back: `mode_at`.)
    pub fn number(self) -> usize
        ensures { result ≡ number_of self }
    {
        self as usize
    }

    // May more signs of the sort that left it follow, to be read at once?
    pub fn goes_on(self) -> bool
        ensures { result ≡ leb owing (number_of self) }
    {
        Mode::Owing.number() <= self.number()
    }
}

// The mode that has a number.
pub fn mode_at(number: usize) -> Mode
    ensures { result ≡ mode_at number }
{
    match number {
        0 => Mode::Free,
        1 => Mode::Lone,
        2 => Mode::Mixed,
        3 => Mode::Whole1,
        4 => Mode::Under1,
        5 => Mode::End,
        6 => Mode::Hyphen,
        7 => Mode::Fem,
        8 => Mode::Percent,
        9 => Mode::Owing,
        10 => Mode::Dash,
        11 => Mode::Whole2,
        12 => Mode::Num,
        13 => Mode::Low,
        14 => Mode::Under,
        _ => Mode::Mid,
    }
}

// The classes of cells: all that the table asks of one.
#[derive(Clone, Copy, PartialEq, Eq)]
pub enum Class {
    // begins no sign
    Nothing,
    // a, 1, and ª
    LetterA,
    // b to j, and a digit
    BToJ,
    // o, and º
    LetterO,
    // another letter
    OtherLetter,
    // full stop
    Stop,
    // comma, and a lower digit
    Comma,
    // a sign, and a lower digit
    SignOrLow,
    // a pair mark, and a lower digit
    MarkOrLow,
    // a lower digit
    LowOnly,
    // a sign
    Sign,
    // 36: a hyphen, or half of U+2014
    Line,
    // 46
    CapitalSign,
    // 3456
    FigureSign,
    // 5
    Separator,
    // another cell with which longer signs begin
    Prefix,
}

// What is read at a place (tools/readings.txt says what each deed is).
#[derive(Clone, Copy, PartialEq, Eq)]
pub enum Deed {
    // the cell alone decides
    NoSign,
    AsUsual,
    Digit,
    DigitUnder,
    CapitalOfMany,
    LowerDigit,
    Denominator,
    MasculineMark,
    // questions, which the cells that follow decide
    Point,
    OneOrFeminine,
    HyphenOrDash,
    DashOnly,
    NumberSign,
    Capital,
    Separates,
    Prefixed,
}

// The table has a row for each mode: how many modes and how many classes there is room for.
pub const MODE_PLACES: usize = 16;

const TABLE_ROW: usize = 16;

// The fields of a cell's word (a number, so that the table is read once for all of them), from the lowest: where each stands, and how many values it has room for. What is asked of most cells is where the machine
// finds it at once: the modes lowest, the mode after it highest.
const USUAL_AT: u64 = 1;

const POINT_AT: u64 = 65536;

pub const POINT_PLACES: u64 = 65536;

const CAPITAL_AT: u64 = 4294967296;

const CAPITAL_PLACES: u64 = 256;

const FIGURE_AT: u64 = 1099511627776;

const LOWER_AT: u64 = 70368744177664;

const FIGURE_PLACES: u64 = 64;

const KIND_AT: u64 = 4503599627370496;

const KIND_PLACES: u64 = 16;

const CLASS_AT: u64 = 72057594037927936;

const CLASS_PLACES: u64 = 16;

const THEN_AT: u64 = 1152921504606846976;

// Where the fields of a cell's word within a run stand (cells.rt).
const RUN_FIGURE: u64 = 1;

const RUN_CAPITAL: u64 = 65536;

const RUN_LOWER: u64 = 4294967296;

const RUN_BETWEEN: u64 = 281474976710656;

// How many bits a code point has in a cell's word within a run, and in its word as the second of a sign.
pub const POINT_BITS: usize = 16;

// No code point, in a field of a word and at a kind that is none.
pub const NO_POINT: u32 = 0;

// How many kinds of pair marks the look-ups have room for.
const MARK_PLACES: usize = 8;

// The kind of ‘ and ’, whose cells are 6-236.
pub const INNER_QUOTES: usize = 3;

// A field of a word as a code point, if it has one.
pub fn shown(field: u32) -> Option<u32>
    ensures { result ≡ shown field }
{
    if field == NO_POINT { None } else { Some(field) }
}

// The functions that read a field differ in where it stands and how many values it has room for; one for all would be told both at each call, and says no less.

// What a byte is alone: a small letter or a sign, if it is one. (For a row of one cell.)
pub fn point_of(cell: u8) -> Option<u32>
    ensures { result ≡ shown (point_in (word_of cell)) }
{
    shown(point_in(cells::word_of(cell)))
}

// What the table says of a mode and a class. (The place is one number, so that it is one jump to the code of the deed, whatever mode and class it follows from: of
// a `match` on both the compiler makes one by the class and more by the mode, which the processor foresees less often. Both numbers are below 16, so that the
// remainders are they.)
pub fn deed_of(mode: Mode, class: Class) -> Deed
    ensures { deed_number result ≡ deed_of (number_of mode) (class_number class) }
{
    table::deed_at(mode.number() % MODE_PLACES * TABLE_ROW + class as usize % TABLE_ROW)
}

// The class of a cell, by its word.
pub fn class_in(word: u64) -> Class
    ensures { class_number result ≡ class_in word }
{
    match word / CLASS_AT % CLASS_PLACES {
        0 => Class::Nothing,
        1 => Class::LetterA,
        2 => Class::BToJ,
        3 => Class::LetterO,
        4 => Class::OtherLetter,
        5 => Class::Stop,
        6 => Class::Comma,
        7 => Class::SignOrLow,
        8 => Class::MarkOrLow,
        9 => Class::LowOnly,
        10 => Class::Sign,
        11 => Class::Line,
        12 => Class::CapitalSign,
        13 => Class::FigureSign,
        14 => Class::Separator,
        _ => Class::Prefix,
    }
}

// The small letter or the sign that the cell is alone.
pub fn point_in(word: u64) -> u32
    ensures { result ≡ point_in word }
{
    (word / POINT_AT % POINT_PLACES) as u32
}

// Its capital, or NO_POINT where it is no letter.
pub fn capital_in(word: u64) -> u32
    ensures { result ≡ capital_in word }
{
    (word / CAPITAL_AT % CAPITAL_PLACES) as u32
}

// Its digit, or NO_POINT where it has none.
pub fn figure_in(word: u64) -> u32
    ensures { result ≡ figure_in word }
{
    (word / FIGURE_AT % FIGURE_PLACES) as u32
}

// Its digit as a lower digit, or NO_POINT.
pub fn lower_in(word: u64) -> u32
    ensures { result ≡ lower_in word }
{
    (word / LOWER_AT % FIGURE_PLACES) as u32
}

// The kind of a pair mark; and of a cell that begins signs of two its number among those.
pub fn kind_in(word: u64) -> usize
    ensures { result ≡ kind_in word }
{
    (word / KIND_AT % KIND_PLACES) as usize
}

// The mode after it where it is read as usual.
pub fn then_in(word: u64) -> Mode
    ensures { result ≡ mode_at (then_in word) }
{
    mode_at((word / THEN_AT) as usize)
}

// The openers and the closers, by kind; the kinds have the numbers of the rules (crates/rules/specs/Pairs.antt), and those that are none yet have no mark.
static OPENERS: [u32; MARK_PLACES] = [
    0xbf, // ¿
    0xa1, // ¡
    0xab, // «
    0x2018, // ‘
    0xe000, // emphasis opens
    NO_POINT, NO_POINT, NO_POINT,
];

static CLOSERS: [u32; MARK_PLACES] = [
    0x3f, // ?
    0x21, // !
    0xbb, // »
    0x2019, // ’
    0xe001, // emphasis closes
    NO_POINT, NO_POINT, NO_POINT,
];

// The opener of a kind. (A kind is below 8, so that the remainder is the kind.)
pub fn opener_of(kind: usize) -> u32
    ensures { result ≡ opener_of kind }
{
    OPENERS[kind % MARK_PLACES]
}

// Its closer.
pub fn closer_of(kind: usize) -> u32
    ensures { result ≡ closer_of kind }
{
    CLOSERS[kind % MARK_PLACES]
}
