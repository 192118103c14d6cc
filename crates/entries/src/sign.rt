// A sign: the cells that are written at a place, at most three, with their count, in one word of 32 bits.
ghost use Rattle.std.specs.Prelude.{◌≡◌, ◌≤◌};
ghost use Rattle.entries.specs.SignWords.{count_of, first_of, second_of, third_of, sign_of_one, sign_of_two, sign_of_three};

// The fields, from the lowest: where each stands, and how many values it has room for. Above the third cell anything may stand: a sign that is taken from the word
// of a code point has there what the word has, the state after it. Each field is read as a remainder, so nothing that reads a sign looks there.
const COUNT_PLACES: u32 = 4;

const FIRST: u32 = 4; // the first cell, above the count

const SECOND: u32 = 256;

const THIRD: u32 = 16384;

const CELL_PLACES: u32 = 64;

// How many cells it has.
pub fn count_of(sign: u32) -> usize
    ensures { (result ≡ count_of sign) × (result ≤ 3) }
{
    (sign % COUNT_PLACES) as usize
}

// Its cells. (A function for each: one for all would be told a place, and its caller would have to show that the place is one of three.)
pub fn first_of(sign: u32) -> u8
    ensures { result ≡ first_of sign }
{
    (sign / FIRST % CELL_PLACES) as u8
}

pub fn second_of(sign: u32) -> u8
    ensures { result ≡ second_of sign }
{
    (sign / SECOND % CELL_PLACES) as u8
}

pub fn third_of(sign: u32) -> u8
    ensures { result ≡ third_of sign }
{
    (sign / THIRD % CELL_PLACES) as u8
}

// The sign of one, two or three cells. (A cell is below 64, so that the remainder is the cell. One for all would go over the cells it is lent, which is no plainer.)
pub fn one_cell(first: u8) -> u32
    ensures { result ≡ sign_of_one first }
{
    1 + FIRST * (first as u32 % CELL_PLACES)
}

pub fn two_cells(first: u8, second: u8) -> u32
    ensures { result ≡ sign_of_two first second }
{
    2 + FIRST * (first as u32 % CELL_PLACES) + SECOND * (second as u32 % CELL_PLACES)
}

pub fn three_cells(first: u8, second: u8, third: u8) -> u32
    ensures { result ≡ sign_of_three first second third }
{
    3 + FIRST * (first as u32 % CELL_PLACES)
        + SECOND * (second as u32 % CELL_PLACES)
        + THIRD * (third as u32 % CELL_PLACES)
}
