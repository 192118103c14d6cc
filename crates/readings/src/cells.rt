// Printed by tools/print-cells.sh from crates/rules/specs/Castilian.antt and tools/readings.txt: change those, and print it again.
// What a cell may be: its word, by its fields; and its word as the second of a sign of two, which begins with a cell that is none by itself. The check compares
// what is read at each with the rules.
ghost use Rattle.std.specs.Prelude.{◌≡◌, get_or};
ghost use Rattle.readings.specs.Fields.{letter_in, inside_in, run_in};
ghost use Rattle.readings.specs.Words.{word_of, second_of};

use crate::{
    CAPITAL_AT, CLASS_AT, Class, FIGURE_AT, KIND_AT, LOWER_AT, Mode, NO_POINT, POINT_AT,
    POINT_BITS, POINT_PLACES, RUN_BETWEEN, RUN_CAPITAL, RUN_FIGURE, RUN_LOWER, THEN_AT, USUAL_AT,
    capital_in, point_in,
};

// How many cells there are. "Cells are bytes 0 to 63"
const CELLS: usize = 64;

const BYTES: usize = 256;

// The word of a cell that begins no sign, and of what is no cell.
const NOTHING: u64 = 0;

// The cells, by their dots.
pub const D0: u8 = 0;

pub const D1: u8 = 1;

pub const D2: u8 = 2;

pub const D12: u8 = 3;

pub const D3: u8 = 4;

pub const D13: u8 = 5;

pub const D23: u8 = 6;

pub const D123: u8 = 7;

pub const D4: u8 = 8;

pub const D14: u8 = 9;

pub const D24: u8 = 10;

pub const D124: u8 = 11;

pub const D34: u8 = 12;

pub const D134: u8 = 13;

pub const D234: u8 = 14;

pub const D1234: u8 = 15;

pub const D5: u8 = 16;

pub const D15: u8 = 17;

pub const D25: u8 = 18;

pub const D125: u8 = 19;

pub const D35: u8 = 20;

pub const D135: u8 = 21;

pub const D235: u8 = 22;

pub const D1235: u8 = 23;

pub const D45: u8 = 24;

pub const D145: u8 = 25;

pub const D245: u8 = 26;

pub const D1245: u8 = 27;

pub const D345: u8 = 28;

pub const D1345: u8 = 29;

pub const D2345: u8 = 30;

pub const D12345: u8 = 31;

pub const D6: u8 = 32;

pub const D16: u8 = 33;

pub const D26: u8 = 34;

pub const D126: u8 = 35;

pub const D36: u8 = 36;

pub const D136: u8 = 37;

pub const D236: u8 = 38;

pub const D1236: u8 = 39;

pub const D46: u8 = 40;

pub const D146: u8 = 41;

pub const D246: u8 = 42;

pub const D1246: u8 = 43;

pub const D346: u8 = 44;

pub const D1346: u8 = 45;

pub const D2346: u8 = 46;

pub const D12346: u8 = 47;

pub const D56: u8 = 48;

pub const D156: u8 = 49;

pub const D256: u8 = 50;

pub const D1256: u8 = 51;

pub const D356: u8 = 52;

pub const D1356: u8 = 53;

pub const D2356: u8 = 54;

pub const D12356: u8 = 55;

pub const D456: u8 = 56;

pub const D1456: u8 = 57;

pub const D2456: u8 = 58;

pub const D12456: u8 = 59;

pub const D3456: u8 = 60;

pub const D13456: u8 = 61;

pub const D23456: u8 = 62;

pub const D123456: u8 = 63;

// The bit of a mode.
const IN_FREE: u64 = USUAL_AT << Mode::Free as u64;

const IN_LONE: u64 = USUAL_AT << Mode::Lone as u64;

const IN_MIXED: u64 = USUAL_AT << Mode::Mixed as u64;

const IN_END: u64 = USUAL_AT << Mode::End as u64;

const IN_HYPHEN: u64 = USUAL_AT << Mode::Hyphen as u64;

const IN_FEM: u64 = USUAL_AT << Mode::Fem as u64;

const IN_PERCENT: u64 = USUAL_AT << Mode::Percent as u64;

const IN_OWING: u64 = USUAL_AT << Mode::Owing as u64;

const IN_DASH: u64 = USUAL_AT << Mode::Dash as u64;

const IN_WHOLE2: u64 = USUAL_AT << Mode::Whole2 as u64;

const IN_NUM: u64 = USUAL_AT << Mode::Num as u64;

const IN_UNDER: u64 = USUAL_AT << Mode::Under as u64;

// What a class is: its number, the modes in which it is read as usual, and the mode after it then.
const AS_LETTER_A: u64 = CLASS_AT * Class::LetterA as u64
    + THEN_AT * Mode::Mixed as u64
    + IN_FREE
    + IN_LONE
    + IN_MIXED
    + IN_HYPHEN
    + IN_PERCENT
    + IN_OWING
    + IN_DASH;

const AS_B_TO_J: u64 = CLASS_AT * Class::BToJ as u64
    + THEN_AT * Mode::Mixed as u64
    + IN_FREE
    + IN_LONE
    + IN_MIXED
    + IN_HYPHEN
    + IN_PERCENT
    + IN_OWING
    + IN_DASH;

const AS_LETTER_O: u64 = CLASS_AT * Class::LetterO as u64
    + THEN_AT * Mode::Mixed as u64
    + IN_FREE
    + IN_LONE
    + IN_MIXED
    + IN_END
    + IN_HYPHEN
    + IN_FEM
    + IN_PERCENT
    + IN_OWING
    + IN_DASH
    + IN_NUM
    + IN_UNDER;

const AS_OTHER_LETTER: u64 = CLASS_AT * Class::OtherLetter as u64
    + THEN_AT * Mode::Mixed as u64
    + IN_FREE
    + IN_LONE
    + IN_MIXED
    + IN_END
    + IN_HYPHEN
    + IN_FEM
    + IN_PERCENT
    + IN_OWING
    + IN_DASH
    + IN_NUM
    + IN_UNDER;

const AS_STOP: u64 = CLASS_AT * Class::Stop as u64
    + THEN_AT * Mode::Free as u64
    + IN_FREE
    + IN_LONE
    + IN_MIXED
    + IN_END
    + IN_HYPHEN
    + IN_FEM
    + IN_PERCENT
    + IN_DASH
    + IN_WHOLE2
    + IN_UNDER;

const AS_COMMA: u64 = CLASS_AT * Class::Comma as u64
    + THEN_AT * Mode::Free as u64
    + IN_FREE
    + IN_LONE
    + IN_MIXED
    + IN_END
    + IN_HYPHEN
    + IN_FEM
    + IN_PERCENT
    + IN_DASH
    + IN_WHOLE2
    + IN_UNDER;

const AS_SIGN_OR_LOW: u64 = CLASS_AT * Class::SignOrLow as u64
    + THEN_AT * Mode::Free as u64
    + IN_FREE
    + IN_LONE
    + IN_MIXED
    + IN_END
    + IN_HYPHEN
    + IN_FEM
    + IN_PERCENT
    + IN_DASH
    + IN_WHOLE2
    + IN_NUM
    + IN_UNDER;

const AS_MARK_OR_LOW: u64 = CLASS_AT * Class::MarkOrLow as u64
    + THEN_AT * Mode::Free as u64
    + IN_FREE
    + IN_LONE
    + IN_MIXED
    + IN_END
    + IN_HYPHEN
    + IN_FEM
    + IN_PERCENT
    + IN_DASH
    + IN_WHOLE2
    + IN_NUM
    + IN_UNDER;

const AS_SIGN: u64 = CLASS_AT * Class::Sign as u64
    + THEN_AT * Mode::Free as u64
    + IN_FREE
    + IN_LONE
    + IN_MIXED
    + IN_END
    + IN_HYPHEN
    + IN_FEM
    + IN_PERCENT
    + IN_DASH
    + IN_WHOLE2
    + IN_NUM
    + IN_UNDER;

// The words of the bytes; that of one that is no cell begins no sign. (Each byte has a place in this table, so that in the reading loop nothing is asked first.)
static WORDS: [u64; BYTES] = [
    AS_SIGN + POINT_AT * 0x20, // 0: space
    AS_LETTER_A + POINT_AT * 0x61 + CAPITAL_AT * 0x41 + FIGURE_AT * 0x31, // 1: 1 A a ª
    AS_COMMA + POINT_AT * 0x2c + LOWER_AT * 0x31, // 2: , 1
    AS_B_TO_J + POINT_AT * 0x62 + CAPITAL_AT * 0x42 + FIGURE_AT * 0x32, // 12: 2 B b
    AS_STOP + POINT_AT * 0x2e, // 3: .
    AS_OTHER_LETTER + POINT_AT * 0x6b + CAPITAL_AT * 0x4b, // 13: K k
    AS_SIGN_OR_LOW + POINT_AT * 0x3b + LOWER_AT * 0x32, // 23: 2 ;
    AS_OTHER_LETTER + POINT_AT * 0x6c + CAPITAL_AT * 0x4c, // 123: L l
    NOTHING, // 4
    AS_B_TO_J + POINT_AT * 0x63 + CAPITAL_AT * 0x43 + FIGURE_AT * 0x33, // 14: 3 C c
    AS_B_TO_J + POINT_AT * 0x69 + CAPITAL_AT * 0x49 + FIGURE_AT * 0x39, // 24: 9 I i
    AS_B_TO_J + POINT_AT * 0x66 + CAPITAL_AT * 0x46 + FIGURE_AT * 0x36, // 124: 6 F f
    AS_OTHER_LETTER + POINT_AT * 0xed + CAPITAL_AT * 0xcd, // 34: Í í
    AS_OTHER_LETTER + POINT_AT * 0x6d + CAPITAL_AT * 0x4d, // 134: M m
    AS_OTHER_LETTER + POINT_AT * 0x73 + CAPITAL_AT * 0x53, // 234: S s
    AS_OTHER_LETTER + POINT_AT * 0x70 + CAPITAL_AT * 0x50, // 1234: P p
    CLASS_AT * Class::Separator as u64 + KIND_AT * 0, // 5
    AS_B_TO_J + POINT_AT * 0x65 + CAPITAL_AT * 0x45 + FIGURE_AT * 0x35, // 15: 5 E e
    AS_SIGN_OR_LOW + POINT_AT * 0x3a + LOWER_AT * 0x33, // 25: 3 :
    AS_B_TO_J + POINT_AT * 0x68 + CAPITAL_AT * 0x48 + FIGURE_AT * 0x38, // 125: 8 H h
    AS_MARK_OR_LOW + LOWER_AT * 0x39 + KIND_AT * 4, // 35: 9 emphasis opens emphasis closes
    AS_LETTER_O + POINT_AT * 0x6f + CAPITAL_AT * 0x4f, // 135: O o º
    AS_MARK_OR_LOW + LOWER_AT * 0x36 + KIND_AT * 1, // 235: ! 6 ¡
    AS_OTHER_LETTER + POINT_AT * 0x72 + CAPITAL_AT * 0x52, // 1235: R r
    CLASS_AT * Class::Prefix as u64 + KIND_AT * 1, // 45
    AS_B_TO_J + POINT_AT * 0x64 + CAPITAL_AT * 0x44 + FIGURE_AT * 0x34, // 145: 4 D d
    AS_B_TO_J + POINT_AT * 0x6a + CAPITAL_AT * 0x4a + FIGURE_AT * 0x30, // 245: 0 J j
    AS_B_TO_J + POINT_AT * 0x67 + CAPITAL_AT * 0x47 + FIGURE_AT * 0x37, // 1245: 7 G g
    AS_SIGN + POINT_AT * 0x29, // 345: )
    AS_OTHER_LETTER + POINT_AT * 0x6e + CAPITAL_AT * 0x4e, // 1345: N n
    AS_OTHER_LETTER + POINT_AT * 0x74 + CAPITAL_AT * 0x54, // 2345: T t
    AS_OTHER_LETTER + POINT_AT * 0x71 + CAPITAL_AT * 0x51, // 12345: Q q
    CLASS_AT * Class::Prefix as u64 + KIND_AT * 2, // 6
    NOTHING, // 16
    AS_MARK_OR_LOW + LOWER_AT * 0x35 + KIND_AT * 0, // 26: 5 ? ¿
    AS_SIGN + POINT_AT * 0x28, // 126: (
    CLASS_AT * Class::Line as u64 + POINT_AT * 0x2d, // 36: -
    AS_OTHER_LETTER + POINT_AT * 0x75 + CAPITAL_AT * 0x55, // 136: U u
    AS_MARK_OR_LOW + LOWER_AT * 0x38 + KIND_AT * 2, // 236: 8 « »
    AS_OTHER_LETTER + POINT_AT * 0x76 + CAPITAL_AT * 0x56, // 1236: V v
    CLASS_AT * Class::CapitalSign as u64, // 46
    NOTHING, // 146
    NOTHING, // 246
    NOTHING, // 1246
    AS_OTHER_LETTER + POINT_AT * 0xf3 + CAPITAL_AT * 0xd3, // 346: Ó ó
    AS_OTHER_LETTER + POINT_AT * 0x78 + CAPITAL_AT * 0x58, // 1346: X x
    AS_OTHER_LETTER + POINT_AT * 0xe9 + CAPITAL_AT * 0xc9, // 2346: É é
    NOTHING, // 12346
    NOTHING, // 56
    NOTHING, // 156
    CLASS_AT * Class::LowOnly as u64 + LOWER_AT * 0x34, // 256: 4
    AS_OTHER_LETTER + POINT_AT * 0xfc + CAPITAL_AT * 0xdc, // 1256: Ü ü
    CLASS_AT * Class::LowOnly as u64 + LOWER_AT * 0x30, // 356: 0
    AS_OTHER_LETTER + POINT_AT * 0x7a + CAPITAL_AT * 0x5a, // 1356: Z z
    AS_SIGN_OR_LOW + POINT_AT * 0x3d + LOWER_AT * 0x37, // 2356: 7 =
    AS_OTHER_LETTER + POINT_AT * 0xe1 + CAPITAL_AT * 0xc1, // 12356: Á á
    CLASS_AT * Class::Prefix as u64 + KIND_AT * 3, // 456
    NOTHING, // 1456
    AS_OTHER_LETTER + POINT_AT * 0x77 + CAPITAL_AT * 0x57, // 2456: W w
    AS_OTHER_LETTER + POINT_AT * 0xf1 + CAPITAL_AT * 0xd1, // 12456: Ñ ñ
    CLASS_AT * Class::FigureSign as u64, // 3456
    AS_OTHER_LETTER + POINT_AT * 0x79 + CAPITAL_AT * 0x59, // 13456: Y y
    AS_OTHER_LETTER + POINT_AT * 0xfa + CAPITAL_AT * 0xda, // 23456: Ú ú
    NOTHING, // 123456
    NOTHING, // from here on no cells
    NOTHING,
    NOTHING,
    NOTHING,
    NOTHING,
    NOTHING,
    NOTHING,
    NOTHING,
    NOTHING,
    NOTHING,
    NOTHING,
    NOTHING,
    NOTHING,
    NOTHING,
    NOTHING,
    NOTHING,
    NOTHING,
    NOTHING,
    NOTHING,
    NOTHING,
    NOTHING,
    NOTHING,
    NOTHING,
    NOTHING,
    NOTHING,
    NOTHING,
    NOTHING,
    NOTHING,
    NOTHING,
    NOTHING,
    NOTHING,
    NOTHING,
    NOTHING,
    NOTHING,
    NOTHING,
    NOTHING,
    NOTHING,
    NOTHING,
    NOTHING,
    NOTHING,
    NOTHING,
    NOTHING,
    NOTHING,
    NOTHING,
    NOTHING,
    NOTHING,
    NOTHING,
    NOTHING,
    NOTHING,
    NOTHING,
    NOTHING,
    NOTHING,
    NOTHING,
    NOTHING,
    NOTHING,
    NOTHING,
    NOTHING,
    NOTHING,
    NOTHING,
    NOTHING,
    NOTHING,
    NOTHING,
    NOTHING,
    NOTHING,
    NOTHING,
    NOTHING,
    NOTHING,
    NOTHING,
    NOTHING,
    NOTHING,
    NOTHING,
    NOTHING,
    NOTHING,
    NOTHING,
    NOTHING,
    NOTHING,
    NOTHING,
    NOTHING,
    NOTHING,
    NOTHING,
    NOTHING,
    NOTHING,
    NOTHING,
    NOTHING,
    NOTHING,
    NOTHING,
    NOTHING,
    NOTHING,
    NOTHING,
    NOTHING,
    NOTHING,
    NOTHING,
    NOTHING,
    NOTHING,
    NOTHING,
    NOTHING,
    NOTHING,
    NOTHING,
    NOTHING,
    NOTHING,
    NOTHING,
    NOTHING,
    NOTHING,
    NOTHING,
    NOTHING,
    NOTHING,
    NOTHING,
    NOTHING,
    NOTHING,
    NOTHING,
    NOTHING,
    NOTHING,
    NOTHING,
    NOTHING,
    NOTHING,
    NOTHING,
    NOTHING,
    NOTHING,
    NOTHING,
    NOTHING,
    NOTHING,
    NOTHING,
    NOTHING,
    NOTHING,
    NOTHING,
    NOTHING,
    NOTHING,
    NOTHING,
    NOTHING,
    NOTHING,
    NOTHING,
    NOTHING,
    NOTHING,
    NOTHING,
    NOTHING,
    NOTHING,
    NOTHING,
    NOTHING,
    NOTHING,
    NOTHING,
    NOTHING,
    NOTHING,
    NOTHING,
    NOTHING,
    NOTHING,
    NOTHING,
    NOTHING,
    NOTHING,
    NOTHING,
    NOTHING,
    NOTHING,
    NOTHING,
    NOTHING,
    NOTHING,
    NOTHING,
    NOTHING,
    NOTHING,
    NOTHING,
    NOTHING,
    NOTHING,
    NOTHING,
    NOTHING,
    NOTHING,
    NOTHING,
    NOTHING,
    NOTHING,
    NOTHING,
    NOTHING,
    NOTHING,
    NOTHING,
    NOTHING,
    NOTHING,
    NOTHING,
    NOTHING,
    NOTHING,
    NOTHING,
    NOTHING,
    NOTHING,
    NOTHING,
    NOTHING,
    NOTHING,
    NOTHING,
    NOTHING,
    NOTHING,
    NOTHING,
    NOTHING,
    NOTHING,
    NOTHING,
    NOTHING,
    NOTHING,
    NOTHING,
    NOTHING,
];

pub fn word_of(cell: u8) -> u64
    ensures { result ≡ word_of cell }
{
    WORDS[cell as usize]
}

// The small letter of a letter, or NO_POINT.
pub fn letter_of(cell: u8) -> u32
    ensures { result ≡ letter_in (word_of cell) }
{
    let word = word_of(cell);
    if capital_in(word) == NO_POINT {
        NO_POINT
    } else {
        point_in(word)
    }
}

// The cells that are small letters, and those that are signs, wherever nothing is begun and in a run with a small letter: a bit for each.
pub const LETTERS_ALONE: u64 = (1 << D1)
    + (1 << D12)
    + (1 << D13)
    + (1 << D123)
    + (1 << D14)
    + (1 << D24)
    + (1 << D124)
    + (1 << D34)
    + (1 << D134)
    + (1 << D234)
    + (1 << D1234)
    + (1 << D15)
    + (1 << D125)
    + (1 << D135)
    + (1 << D1235)
    + (1 << D145)
    + (1 << D245)
    + (1 << D1245)
    + (1 << D1345)
    + (1 << D2345)
    + (1 << D12345)
    + (1 << D136)
    + (1 << D1236)
    + (1 << D346)
    + (1 << D1346)
    + (1 << D2346)
    + (1 << D1256)
    + (1 << D1356)
    + (1 << D12356)
    + (1 << D2456)
    + (1 << D12456)
    + (1 << D13456)
    + (1 << D23456);

pub const SIGNS_ALONE: u64 = (1 << D0)
    + (1 << D2)
    + (1 << D3)
    + (1 << D23)
    + (1 << D25)
    + (1 << D345)
    + (1 << D126)
    + (1 << D2356);

// What a table has for a byte; of one that is no cell it has nothing.
fn looked_up(words: &[u64; CELLS], byte: u8) -> u64
    ensures { result ≡ get_or words.now byte 0 }
{
    let place = byte as usize;
    if place < CELLS { words[place] } else { NOTHING }
}

// What a cell is within a run, where each cell is one code point: its digit, its capital, its lower digit, and the full stop or the comma between two digits, a field
// for each.
static RUN_WORDS: [u64; CELLS] = [
    NOTHING, // 0: space
    RUN_FIGURE * 0x31 + RUN_CAPITAL * 0x41, // 1: 1 A a ª
    RUN_LOWER * 0x31 + RUN_BETWEEN * 0x2c, // 2: , 1
    RUN_FIGURE * 0x32 + RUN_CAPITAL * 0x42, // 12: 2 B b
    RUN_BETWEEN * 0x2e, // 3: .
    RUN_CAPITAL * 0x4b, // 13: K k
    RUN_LOWER * 0x32, // 23: 2 ;
    RUN_CAPITAL * 0x4c, // 123: L l
    NOTHING, // 4
    RUN_FIGURE * 0x33 + RUN_CAPITAL * 0x43, // 14: 3 C c
    RUN_FIGURE * 0x39 + RUN_CAPITAL * 0x49, // 24: 9 I i
    RUN_FIGURE * 0x36 + RUN_CAPITAL * 0x46, // 124: 6 F f
    RUN_CAPITAL * 0xcd, // 34: Í í
    RUN_CAPITAL * 0x4d, // 134: M m
    RUN_CAPITAL * 0x53, // 234: S s
    RUN_CAPITAL * 0x50, // 1234: P p
    NOTHING, // 5
    RUN_FIGURE * 0x35 + RUN_CAPITAL * 0x45, // 15: 5 E e
    RUN_LOWER * 0x33, // 25: 3 :
    RUN_FIGURE * 0x38 + RUN_CAPITAL * 0x48, // 125: 8 H h
    RUN_LOWER * 0x39, // 35: 9 emphasis opens emphasis closes
    RUN_CAPITAL * 0x4f, // 135: O o º
    RUN_LOWER * 0x36, // 235: ! 6 ¡
    RUN_CAPITAL * 0x52, // 1235: R r
    NOTHING, // 45
    RUN_FIGURE * 0x34 + RUN_CAPITAL * 0x44, // 145: 4 D d
    RUN_FIGURE * 0x30 + RUN_CAPITAL * 0x4a, // 245: 0 J j
    RUN_FIGURE * 0x37 + RUN_CAPITAL * 0x47, // 1245: 7 G g
    NOTHING, // 345: )
    RUN_CAPITAL * 0x4e, // 1345: N n
    RUN_CAPITAL * 0x54, // 2345: T t
    RUN_CAPITAL * 0x51, // 12345: Q q
    NOTHING, // 6
    NOTHING, // 16
    RUN_LOWER * 0x35, // 26: 5 ? ¿
    NOTHING, // 126: (
    NOTHING, // 36: -
    RUN_CAPITAL * 0x55, // 136: U u
    RUN_LOWER * 0x38, // 236: 8 « »
    RUN_CAPITAL * 0x56, // 1236: V v
    NOTHING, // 46
    NOTHING, // 146
    NOTHING, // 246
    NOTHING, // 1246
    RUN_CAPITAL * 0xd3, // 346: Ó ó
    RUN_CAPITAL * 0x58, // 1346: X x
    RUN_CAPITAL * 0xc9, // 2346: É é
    NOTHING, // 12346
    NOTHING, // 56
    NOTHING, // 156
    RUN_LOWER * 0x34, // 256: 4
    RUN_CAPITAL * 0xdc, // 1256: Ü ü
    RUN_LOWER * 0x30, // 356: 0
    RUN_CAPITAL * 0x5a, // 1356: Z z
    RUN_LOWER * 0x37, // 2356: 7 =
    RUN_CAPITAL * 0xc1, // 12356: Á á
    NOTHING, // 456
    NOTHING, // 1456
    RUN_CAPITAL * 0x57, // 2456: W w
    RUN_CAPITAL * 0xd1, // 12456: Ñ ñ
    NOTHING, // 3456
    RUN_CAPITAL * 0x59, // 13456: Y y
    RUN_CAPITAL * 0xda, // 23456: Ú ú
    NOTHING, // 123456
];

pub fn run_word(cell: u8) -> u64
    ensures { result ≡ run_in (word_of cell) }
{
    looked_up(&RUN_WORDS, cell)
}

// What a cell is inside a number: its digit, the full stop or the comma; or NO_POINT. (No cell is a digit and one of these, so that two fields of its word within a run make one, without
// a jump.)
#[tactic(auto, using(crate::proofs::Words::inside_told))]
pub fn inside_number(cell: u8) -> u32
    ensures { result ≡ inside_in (word_of cell) }
{
    let word = run_word(cell);
    (word % POINT_PLACES + word / RUN_BETWEEN) as u32
}

// The cells that begin signs of two and are none by themselves, in their order: where the sign of each stands in the word of the second.
const BEHIND_5: u64 = 1 << (0 * POINT_BITS);

const BEHIND_45: u64 = 1 << (1 * POINT_BITS);

const BEHIND_6: u64 = 1 << (2 * POINT_BITS);

const BEHIND_456: u64 = 1 << (3 * POINT_BITS);

// What a byte is as the second of a sign of two. Of a pair mark the opener stands for both. (Each byte has a place in this table too, so that at a sign of two nothing is asked first.)
static SECOND_WORDS: [u64; BYTES] = [
    NOTHING, // 0
    NOTHING, // 1
    BEHIND_6 * 0x2f + BEHIND_456 * 0x7d, // 2: / }
    BEHIND_456 * 0x20bf, // 12: ₿
    BEHIND_5 * 0x5c, // 3: \
    BEHIND_5 * 0x3c, // 13: <
    NOTHING, // 23
    BEHIND_5 * 0x7b, // 123: {
    NOTHING, // 4
    BEHIND_45 * 0xa2, // 14: ¢
    NOTHING, // 24
    NOTHING, // 124
    NOTHING, // 34
    NOTHING, // 134
    BEHIND_456 * 0x24, // 234: $
    NOTHING, // 1234
    NOTHING, // 5
    BEHIND_456 * 0x20ac, // 15: €
    NOTHING, // 25
    NOTHING, // 125
    NOTHING, // 35
    NOTHING, // 135
    NOTHING, // 235
    BEHIND_5 * 0x2020, // 1235: †
    NOTHING, // 45
    NOTHING, // 145
    NOTHING, // 245
    NOTHING, // 1245
    NOTHING, // 345
    NOTHING, // 1345
    NOTHING, // 2345
    NOTHING, // 12345
    NOTHING, // 6
    NOTHING, // 16
    NOTHING, // 26
    NOTHING, // 126
    NOTHING, // 36
    NOTHING, // 136
    BEHIND_6 * 0x2018, // 236: ‘
    NOTHING, // 1236
    NOTHING, // 46
    NOTHING, // 146
    NOTHING, // 246
    NOTHING, // 1246
    NOTHING, // 346
    NOTHING, // 1346
    BEHIND_5 * 0xa3, // 2346: £
    BEHIND_6 * 0x26, // 12346: &
    NOTHING, // 56
    NOTHING, // 156
    NOTHING, // 256
    NOTHING, // 1256
    BEHIND_456 * 0x25, // 356: %
    NOTHING, // 1356
    NOTHING, // 2356
    NOTHING, // 12356
    NOTHING, // 456
    NOTHING, // 1456
    NOTHING, // 2456
    NOTHING, // 12456
    NOTHING, // 3456
    BEHIND_456 * 0xa5, // 13456: ¥
    NOTHING, // 23456
    NOTHING, // 123456
    NOTHING, // no cells any more
    NOTHING,
    NOTHING,
    NOTHING,
    NOTHING,
    NOTHING,
    NOTHING,
    NOTHING,
    NOTHING,
    NOTHING,
    NOTHING,
    NOTHING,
    NOTHING,
    NOTHING,
    NOTHING,
    NOTHING,
    NOTHING,
    NOTHING,
    NOTHING,
    NOTHING,
    NOTHING,
    NOTHING,
    NOTHING,
    NOTHING,
    NOTHING,
    NOTHING,
    NOTHING,
    NOTHING,
    NOTHING,
    NOTHING,
    NOTHING,
    NOTHING,
    NOTHING,
    NOTHING,
    NOTHING,
    NOTHING,
    NOTHING,
    NOTHING,
    NOTHING,
    NOTHING,
    NOTHING,
    NOTHING,
    NOTHING,
    NOTHING,
    NOTHING,
    NOTHING,
    NOTHING,
    NOTHING,
    NOTHING,
    NOTHING,
    NOTHING,
    NOTHING,
    NOTHING,
    NOTHING,
    NOTHING,
    NOTHING,
    NOTHING,
    NOTHING,
    NOTHING,
    NOTHING,
    NOTHING,
    NOTHING,
    NOTHING,
    NOTHING,
    NOTHING,
    NOTHING,
    NOTHING,
    NOTHING,
    NOTHING,
    NOTHING,
    NOTHING,
    NOTHING,
    NOTHING,
    NOTHING,
    NOTHING,
    NOTHING,
    NOTHING,
    NOTHING,
    NOTHING,
    NOTHING,
    NOTHING,
    NOTHING,
    NOTHING,
    NOTHING,
    NOTHING,
    NOTHING,
    NOTHING,
    NOTHING,
    NOTHING,
    NOTHING,
    NOTHING,
    NOTHING,
    NOTHING,
    NOTHING,
    NOTHING,
    NOTHING,
    NOTHING,
    NOTHING,
    NOTHING,
    NOTHING,
    NOTHING,
    NOTHING,
    NOTHING,
    NOTHING,
    NOTHING,
    NOTHING,
    NOTHING,
    NOTHING,
    NOTHING,
    NOTHING,
    NOTHING,
    NOTHING,
    NOTHING,
    NOTHING,
    NOTHING,
    NOTHING,
    NOTHING,
    NOTHING,
    NOTHING,
    NOTHING,
    NOTHING,
    NOTHING,
    NOTHING,
    NOTHING,
    NOTHING,
    NOTHING,
    NOTHING,
    NOTHING,
    NOTHING,
    NOTHING,
    NOTHING,
    NOTHING,
    NOTHING,
    NOTHING,
    NOTHING,
    NOTHING,
    NOTHING,
    NOTHING,
    NOTHING,
    NOTHING,
    NOTHING,
    NOTHING,
    NOTHING,
    NOTHING,
    NOTHING,
    NOTHING,
    NOTHING,
    NOTHING,
    NOTHING,
    NOTHING,
    NOTHING,
    NOTHING,
    NOTHING,
    NOTHING,
    NOTHING,
    NOTHING,
    NOTHING,
    NOTHING,
    NOTHING,
    NOTHING,
    NOTHING,
    NOTHING,
    NOTHING,
    NOTHING,
    NOTHING,
    NOTHING,
    NOTHING,
    NOTHING,
    NOTHING,
    NOTHING,
    NOTHING,
    NOTHING,
    NOTHING,
    NOTHING,
    NOTHING,
    NOTHING,
    NOTHING,
    NOTHING,
    NOTHING,
    NOTHING,
    NOTHING,
    NOTHING,
    NOTHING,
    NOTHING,
    NOTHING,
    NOTHING,
    NOTHING,
    NOTHING,
    NOTHING,
    NOTHING,
    NOTHING,
    NOTHING,
];

pub fn second_word(cell: u8) -> u64
    ensures { result ≡ second_of cell }
{
    SECOND_WORDS[cell as usize]
}
