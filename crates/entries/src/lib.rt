// What a code point is to the transcriber: one word of named fields, found by one look-up (src/list.rt).
// Its sign, the cells that it has by itself, is a word too (src/sign.rt).
// A new field is a constant here and in specs/Entries.antt; a new state is one of `State` here, a number in specs/States.antt and specs/Numbers.antt, and a row of the crate `deeds`.
#![tactic(auto)]

ghost use Rattle.std.specs.Prelude.{◌≡◌, ◌<◌};
ghost use Rattle.rules.specs.Castilian.{castilian};
ghost use Rattle.rules.proofs.Plain.{one_for};
ghost use Rattle.entries.specs.States.{states};
ghost use Rattle.entries.specs.Entries.{entry_of, classes, usual_in, then_in, sign_in, first_in, lower_in, class_in, mark_in};
ghost use Rattle.entries.specs.Numbers.{state_number, class_index, mark_told};

mod list;
pub mod sign;

// The classes of code points: all that a rule asks of a neighbour (crates/rules/specs/Sorts.antt, `Class`).
#[derive(Clone, Copy, PartialEq, Eq)]
pub enum Class {
    AToJ,
    OtherSmall,
    Capital,
    One,
    OtherDigit,
    FullStop,
    Comma,
    Hyphen,
    Dash,
    Bar,
    Masculine,
    Feminine,
    Percent,
    OtherSign,
    Unlisted,
}

// The states: where a place stands (specs/States.antt says what each is).
#[derive(Clone, Copy, PartialEq, Eq)]
pub enum State {
    Free,
    Capitals,
    Mixed,
    Number,
    Lowered,
    Ordinal,
    Barred,
    Under,
    Guarded,
    Hyphened,
    Dashed,
}

// The fields of a word, from the lowest: where each stands, and how many values it has room for. What is asked of most code points stands where the
// machine finds it at once: the states in which it is written as usual lowest, its sign in a half of its own, the state after it highest. (Numbers in one word, and
// no struct: a word is one read of a table, docs/DECISIONS.md, 28.)
const USUAL: u64 = 1; // the states in which it is written as usual, a bit for each; there is room for 16

const CLASS: u64 = 65536; // its class

const CLASS_PLACES: u64 = 16;

const MARK: u64 = 1048576; // its pair mark

const MARK_PLACES: u64 = 16;

const LOWER: u64 = 16777216; // the cell of the lower digit

const CELL_PLACES: u64 = 64;

const SIGN: u64 = 4294967296; // its sign, the upper half: its own cells, with their count before them and THEN above them (src/sign.rt)

const COUNT: u64 = SIGN; // how many cells, at most three; then the cells

const FIRST: u64 = SIGN * 4;

const SECOND: u64 = SIGN * 256;

const THIRD: u64 = SIGN * 16384;

const THEN: u64 = 1152921504606846976; // the state after it where it is written as usual: the highest, so that nothing is above it

const WORD_BITS: usize = 64;

// A code point's word. It has a class and leads to a state: no word has another number there.
#[derive(Clone, Copy)]
pub struct Entry {
    word: u64,
    ghost classed: { class_in word < classes },
    ghost leads: { then_in word < states },
}

// The word of a code point. One that becomes another when it is normalised, as “ becomes «, has the word of that one.
pub fn entry_of(point: u32) -> Entry
    ensures { result.word ≡ entry_of castilian (one_for point) }
{
    Entry {
        word: list::word_of(point),
    }
}

// The fields of any word, states, classes and marks by their numbers. (`Entry` has those of a code point's word, by name.)

// Is it written as usual in this state: with its own cells alone? A pair mark never is. (A state is below 16, so that the remainder is the state.)
pub fn is_usual(entry: u64, state: usize) -> bool
    ensures { result ≡ usual_in entry state }
{
    (entry >> (state % WORD_BITS)) % 2 == 1
}

// The state after it where it is written as usual.
pub fn then_in(entry: u64) -> usize
    ensures { result ≡ then_in entry }
{
    (entry / THEN) as usize
}

// Its own cells, with their count. The state after it stays above them, where nothing that reads a sign looks.
pub fn sign_in(entry: u64) -> u32
    ensures { result ≡ sign_in entry }
{
    (entry / SIGN) as u32
}

// The first of them.
pub fn first_in(entry: u64) -> u8
    ensures { result ≡ first_in entry }
{
    (entry / FIRST % CELL_PLACES) as u8
}

// The cell of a lower digit; 0 where it is no digit.
pub fn lower_in(entry: u64) -> u8
    ensures { result ≡ lower_in entry }
{
    (entry / LOWER % CELL_PLACES) as u8
}

// Its class.
pub fn class_in(entry: u64) -> usize
    ensures { result ≡ class_in entry }
{
    (entry / CLASS % CLASS_PLACES) as usize
}

// 0 for no pair mark; 2k + 1 for the opener of kind k, 2k + 2 for its closer.
pub fn mark_in(entry: u64) -> usize
    ensures { result ≡ mark_in entry }
{
    (entry / MARK % MARK_PLACES) as usize
}

impl Entry {
    // Is it written as usual in this state: with its own cells alone? A pair mark never is.
    pub fn is_usual(self, state: State) -> bool
        ensures { result ≡ usual_in self.word (state_number state) }
    {
        (self.word >> (state as u64)) % 2 == 1
    }

    // The state after it where it is written as usual.
    pub fn then(self) -> State
        ensures { state_number result ≡ then_in self.word }
    {
        match then_in(self.word) {
            0 => State::Free,
            1 => State::Capitals,
            2 => State::Mixed,
            3 => State::Number,
            4 => State::Lowered,
            5 => State::Ordinal,
            6 => State::Barred,
            7 => State::Under,
            8 => State::Guarded,
            9 => State::Hyphened,
            10 => State::Dashed,
            _ => unreachable!(),
        }
    }

    // Its own cells, with their count. The state after it stays above them, where nothing that reads a sign looks.
    pub fn sign(self) -> u32
        ensures { result ≡ sign_in self.word }
    {
        sign_in(self.word)
    }

    // The first of them.
    pub fn first(self) -> u8
        ensures { result ≡ first_in self.word }
    {
        first_in(self.word)
    }

    // The cell of a lower digit; 0 where it is no digit.
    pub fn lower(self) -> u8
        ensures { result ≡ lower_in self.word }
    {
        lower_in(self.word)
    }

    // Its class.
    pub fn class(self) -> Class
        ensures { class_index result ≡ class_in self.word }
    {
        match class_in(self.word) {
            0 => Class::AToJ,
            1 => Class::OtherSmall,
            2 => Class::Capital,
            3 => Class::One,
            4 => Class::OtherDigit,
            5 => Class::FullStop,
            6 => Class::Comma,
            7 => Class::Hyphen,
            8 => Class::Dash,
            9 => Class::Bar,
            10 => Class::Masculine,
            11 => Class::Feminine,
            12 => Class::Percent,
            13 => Class::OtherSign,
            14 => Class::Unlisted,
            _ => unreachable!(),
        }
    }

    // Its pair mark, if it is one: 2k + 1 for the opener of kind k, 2k + 2 for its closer.
    pub fn mark(self) -> Option<usize>
        ensures { result ≡ mark_told (mark_in self.word) }
    {
        match mark_in(self.word) {
            0 => None,
            mark => Some(mark),
        }
    }
}
