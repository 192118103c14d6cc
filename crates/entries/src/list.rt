// Printed by tools/print-entries.sh from crates/rules/specs/Castilian.antt and Normal.antt: change those, and print it again.
// The sign list: the word of each code point, by its fields. The check compares each with the rules.
ghost use Rattle.std.specs.Prelude.{◌≡◌};
ghost use Rattle.rules.specs.Castilian.{castilian};
ghost use Rattle.rules.proofs.Plain.{one_for};
ghost use Rattle.entries.specs.Entries.{entry_of};

use crate::{CLASS, COUNT, Class, FIRST, LOWER, MARK, SECOND, State, THEN, THIRD, USUAL};

// The cells, by their dots.
const D0: u64 = 0;

const D1: u64 = 1;

const D2: u64 = 2;

const D3: u64 = 4;

const D5: u64 = 16;

const D6: u64 = 32;

const D12: u64 = 3;

const D13: u64 = 5;

const D14: u64 = 9;

const D15: u64 = 17;

const D23: u64 = 6;

const D24: u64 = 10;

const D25: u64 = 18;

const D26: u64 = 34;

const D34: u64 = 12;

const D35: u64 = 20;

const D36: u64 = 36;

const D45: u64 = 24;

const D46: u64 = 40;

const D123: u64 = 7;

const D124: u64 = 11;

const D125: u64 = 19;

const D126: u64 = 35;

const D134: u64 = 13;

const D135: u64 = 21;

const D136: u64 = 37;

const D145: u64 = 25;

const D234: u64 = 14;

const D235: u64 = 22;

const D236: u64 = 38;

const D245: u64 = 26;

const D256: u64 = 50;

const D345: u64 = 28;

const D346: u64 = 44;

const D356: u64 = 52;

const D456: u64 = 56;

const D1234: u64 = 15;

const D1235: u64 = 23;

const D1236: u64 = 39;

const D1245: u64 = 27;

const D1256: u64 = 51;

const D1345: u64 = 29;

const D1346: u64 = 45;

const D1356: u64 = 53;

const D2345: u64 = 30;

const D2346: u64 = 46;

const D2356: u64 = 54;

const D2456: u64 = 58;

const D12345: u64 = 31;

const D12346: u64 = 47;

const D12356: u64 = 55;

const D12456: u64 = 59;

const D13456: u64 = 61;

const D23456: u64 = 62;

// The bit of a state, and those of all.
const IN_NUMBER: u64 = USUAL << State::Number as u64;

const IN_LOWERED: u64 = USUAL << State::Lowered as u64;

const IN_ORDINAL: u64 = USUAL << State::Ordinal as u64;

const IN_UNDER: u64 = USUAL << State::Under as u64;

const IN_GUARDED: u64 = USUAL << State::Guarded as u64;

const IN_HYPHENED: u64 = USUAL << State::Hyphened as u64;

const IN_DASHED: u64 = USUAL << State::Dashed as u64;

const IN_CAPITALS: u64 = USUAL << State::Capitals as u64;

const IN_ANY: u64 = (USUAL << State::Free as u64)
    + IN_CAPITALS
    + (USUAL << State::Mixed as u64)
    + IN_NUMBER
    + IN_LOWERED
    + IN_ORDINAL
    + (USUAL << State::Barred as u64)
    + IN_UNDER
    + IN_GUARDED
    + IN_HYPHENED
    + IN_DASHED;

// What a class is: its number, the state after it where it is written as usual, and the states in which it is. (A small letter in a run that was supposed to be of capitals
// only is not: such a run is drawn anew, `passes::draw`.)
const AS_A_TO_J: u64 = CLASS * Class::AToJ as u64 + THEN * State::Mixed as u64 + IN_ANY
    - IN_CAPITALS
    - IN_NUMBER
    - IN_UNDER
    - IN_GUARDED;

const AS_OTHER_SMALL: u64 = CLASS * Class::OtherSmall as u64 + THEN * State::Mixed as u64 + IN_ANY
    - IN_CAPITALS;

const AS_CAPITAL: u64 = CLASS * Class::Capital as u64 + THEN * State::Capitals as u64 + IN_CAPITALS;

const AS_ONE: u64 = CLASS * Class::One as u64 + THEN * State::Number as u64 + IN_NUMBER;

const AS_OTHER_DIGIT: u64 = CLASS * Class::OtherDigit as u64
    + THEN * State::Number as u64
    + IN_NUMBER;

const AS_FULL_STOP: u64 = CLASS * Class::FullStop as u64 + THEN * State::Free as u64 + IN_ANY
    - IN_NUMBER
    - IN_LOWERED;

const AS_COMMA: u64 = CLASS * Class::Comma as u64 + THEN * State::Free as u64 + IN_ANY - IN_NUMBER;

const AS_HYPHEN: u64 = CLASS * Class::Hyphen as u64 + THEN * State::Hyphened as u64 + IN_ANY
    - IN_HYPHENED
    - IN_DASHED;

const AS_DASH: u64 = CLASS * Class::Dash as u64 + THEN * State::Dashed as u64 + IN_ANY
    - IN_HYPHENED;

const AS_BAR: u64 = CLASS * Class::Bar as u64 + THEN * State::Barred as u64 + IN_LOWERED;

const AS_MASCULINE: u64 = CLASS * Class::Masculine as u64 + THEN * State::Free as u64 + IN_ORDINAL;

const AS_FEMININE: u64 = CLASS * Class::Feminine as u64 + THEN * State::Guarded as u64 + IN_ORDINAL;

const AS_PERCENT: u64 = CLASS * Class::Percent as u64 + THEN * State::Free as u64 + IN_ANY;

const AS_OTHER_SIGN: u64 = CLASS * Class::OtherSign as u64 + THEN * State::Free as u64 + IN_ANY;

// A pair mark is another sign that is never written as usual: whether its pair allows it is asked first.
const AS_PAIR_MARK: u64 = CLASS * Class::OtherSign as u64 + THEN * State::Free as u64;

const AS_UNLISTED: u64 = CLASS * Class::Unlisted as u64 + THEN * State::Free as u64;

// A pair mark of kind 0; of kind k, MARK * 2 * k more.
const OPENER: u64 = MARK;

const CLOSER: u64 = MARK * 2;

// The code points of the list.
const U0020: u64 = AS_OTHER_SIGN + COUNT * 1 + FIRST * D0; // space

const U0021: u64 = AS_PAIR_MARK + COUNT * 1 + FIRST * D235 + CLOSER + MARK * 2 * 1; // !

const U0024: u64 = AS_OTHER_SIGN + COUNT * 2 + FIRST * D456 + SECOND * D234; // $

const U0025: u64 = AS_PERCENT + COUNT * 2 + FIRST * D456 + SECOND * D356; // %

const U0026: u64 = AS_OTHER_SIGN + COUNT * 2 + FIRST * D6 + SECOND * D12346; // &

const U0028: u64 = AS_OTHER_SIGN + COUNT * 1 + FIRST * D126; // (

const U0029: u64 = AS_OTHER_SIGN + COUNT * 1 + FIRST * D345; // )

const U002C: u64 = AS_COMMA + COUNT * 1 + FIRST * D2; // ,

const U002D: u64 = AS_HYPHEN + COUNT * 1 + FIRST * D36; // -

const U002E: u64 = AS_FULL_STOP + COUNT * 1 + FIRST * D3; // .

const U002F: u64 = AS_OTHER_SIGN + COUNT * 2 + FIRST * D6 + SECOND * D2; // /

const U0030: u64 = AS_OTHER_DIGIT + COUNT * 1 + FIRST * D245 + LOWER * D356; // 0

const U0031: u64 = AS_ONE + COUNT * 1 + FIRST * D1 + LOWER * D2; // 1

const U0032: u64 = AS_OTHER_DIGIT + COUNT * 1 + FIRST * D12 + LOWER * D23; // 2

const U0033: u64 = AS_OTHER_DIGIT + COUNT * 1 + FIRST * D14 + LOWER * D25; // 3

const U0034: u64 = AS_OTHER_DIGIT + COUNT * 1 + FIRST * D145 + LOWER * D256; // 4

const U0035: u64 = AS_OTHER_DIGIT + COUNT * 1 + FIRST * D15 + LOWER * D26; // 5

const U0036: u64 = AS_OTHER_DIGIT + COUNT * 1 + FIRST * D124 + LOWER * D235; // 6

const U0037: u64 = AS_OTHER_DIGIT + COUNT * 1 + FIRST * D1245 + LOWER * D2356; // 7

const U0038: u64 = AS_OTHER_DIGIT + COUNT * 1 + FIRST * D125 + LOWER * D236; // 8

const U0039: u64 = AS_OTHER_DIGIT + COUNT * 1 + FIRST * D24 + LOWER * D35; // 9

const U003A: u64 = AS_OTHER_SIGN + COUNT * 1 + FIRST * D25; // :

const U003B: u64 = AS_OTHER_SIGN + COUNT * 1 + FIRST * D23; // ;

const U003C: u64 = AS_OTHER_SIGN + COUNT * 2 + FIRST * D5 + SECOND * D13; // <

const U003D: u64 = AS_OTHER_SIGN + COUNT * 1 + FIRST * D2356; // =

const U003E: u64 = AS_OTHER_SIGN + COUNT * 2 + FIRST * D46 + SECOND * D2; // >

const U003F: u64 = AS_PAIR_MARK + COUNT * 1 + FIRST * D26 + CLOSER; // ?

const U0041: u64 = AS_CAPITAL + COUNT * 1 + FIRST * D1; // A

const U0042: u64 = AS_CAPITAL + COUNT * 1 + FIRST * D12; // B

const U0043: u64 = AS_CAPITAL + COUNT * 1 + FIRST * D14; // C

const U0044: u64 = AS_CAPITAL + COUNT * 1 + FIRST * D145; // D

const U0045: u64 = AS_CAPITAL + COUNT * 1 + FIRST * D15; // E

const U0046: u64 = AS_CAPITAL + COUNT * 1 + FIRST * D124; // F

const U0047: u64 = AS_CAPITAL + COUNT * 1 + FIRST * D1245; // G

const U0048: u64 = AS_CAPITAL + COUNT * 1 + FIRST * D125; // H

const U0049: u64 = AS_CAPITAL + COUNT * 1 + FIRST * D24; // I

const U004A: u64 = AS_CAPITAL + COUNT * 1 + FIRST * D245; // J

const U004B: u64 = AS_CAPITAL + COUNT * 1 + FIRST * D13; // K

const U004C: u64 = AS_CAPITAL + COUNT * 1 + FIRST * D123; // L

const U004D: u64 = AS_CAPITAL + COUNT * 1 + FIRST * D134; // M

const U004E: u64 = AS_CAPITAL + COUNT * 1 + FIRST * D1345; // N

const U004F: u64 = AS_CAPITAL + COUNT * 1 + FIRST * D135; // O

const U0050: u64 = AS_CAPITAL + COUNT * 1 + FIRST * D1234; // P

const U0051: u64 = AS_CAPITAL + COUNT * 1 + FIRST * D12345; // Q

const U0052: u64 = AS_CAPITAL + COUNT * 1 + FIRST * D1235; // R

const U0053: u64 = AS_CAPITAL + COUNT * 1 + FIRST * D234; // S

const U0054: u64 = AS_CAPITAL + COUNT * 1 + FIRST * D2345; // T

const U0055: u64 = AS_CAPITAL + COUNT * 1 + FIRST * D136; // U

const U0056: u64 = AS_CAPITAL + COUNT * 1 + FIRST * D1236; // V

const U0057: u64 = AS_CAPITAL + COUNT * 1 + FIRST * D2456; // W

const U0058: u64 = AS_CAPITAL + COUNT * 1 + FIRST * D1346; // X

const U0059: u64 = AS_CAPITAL + COUNT * 1 + FIRST * D13456; // Y

const U005A: u64 = AS_CAPITAL + COUNT * 1 + FIRST * D1356; // Z

const U005C: u64 = AS_OTHER_SIGN + COUNT * 2 + FIRST * D5 + SECOND * D3; // \

const U0061: u64 = AS_A_TO_J + COUNT * 1 + FIRST * D1; // a

const U0062: u64 = AS_A_TO_J + COUNT * 1 + FIRST * D12; // b

const U0063: u64 = AS_A_TO_J + COUNT * 1 + FIRST * D14; // c

const U0064: u64 = AS_A_TO_J + COUNT * 1 + FIRST * D145; // d

const U0065: u64 = AS_A_TO_J + COUNT * 1 + FIRST * D15; // e

const U0066: u64 = AS_A_TO_J + COUNT * 1 + FIRST * D124; // f

const U0067: u64 = AS_A_TO_J + COUNT * 1 + FIRST * D1245; // g

const U0068: u64 = AS_A_TO_J + COUNT * 1 + FIRST * D125; // h

const U0069: u64 = AS_A_TO_J + COUNT * 1 + FIRST * D24; // i

const U006A: u64 = AS_A_TO_J + COUNT * 1 + FIRST * D245; // j

const U006B: u64 = AS_OTHER_SMALL + COUNT * 1 + FIRST * D13; // k

const U006C: u64 = AS_OTHER_SMALL + COUNT * 1 + FIRST * D123; // l

const U006D: u64 = AS_OTHER_SMALL + COUNT * 1 + FIRST * D134; // m

const U006E: u64 = AS_OTHER_SMALL + COUNT * 1 + FIRST * D1345; // n

const U006F: u64 = AS_OTHER_SMALL + COUNT * 1 + FIRST * D135; // o

const U0070: u64 = AS_OTHER_SMALL + COUNT * 1 + FIRST * D1234; // p

const U0071: u64 = AS_OTHER_SMALL + COUNT * 1 + FIRST * D12345; // q

const U0072: u64 = AS_OTHER_SMALL + COUNT * 1 + FIRST * D1235; // r

const U0073: u64 = AS_OTHER_SMALL + COUNT * 1 + FIRST * D234; // s

const U0074: u64 = AS_OTHER_SMALL + COUNT * 1 + FIRST * D2345; // t

const U0075: u64 = AS_OTHER_SMALL + COUNT * 1 + FIRST * D136; // u

const U0076: u64 = AS_OTHER_SMALL + COUNT * 1 + FIRST * D1236; // v

const U0077: u64 = AS_OTHER_SMALL + COUNT * 1 + FIRST * D2456; // w

const U0078: u64 = AS_OTHER_SMALL + COUNT * 1 + FIRST * D1346; // x

const U0079: u64 = AS_OTHER_SMALL + COUNT * 1 + FIRST * D13456; // y

const U007A: u64 = AS_OTHER_SMALL + COUNT * 1 + FIRST * D1356; // z

const U007B: u64 = AS_OTHER_SIGN + COUNT * 2 + FIRST * D5 + SECOND * D123; // {

const U007D: u64 = AS_OTHER_SIGN + COUNT * 2 + FIRST * D456 + SECOND * D2; // }

const U00A1: u64 = AS_PAIR_MARK + COUNT * 1 + FIRST * D235 + OPENER + MARK * 2 * 1; // ¡

const U00A2: u64 = AS_OTHER_SIGN + COUNT * 2 + FIRST * D45 + SECOND * D14; // ¢

const U00A3: u64 = AS_OTHER_SIGN + COUNT * 2 + FIRST * D5 + SECOND * D2346; // £

const U00A5: u64 = AS_OTHER_SIGN + COUNT * 2 + FIRST * D456 + SECOND * D13456; // ¥

const U00AA: u64 = AS_FEMININE + COUNT * 1 + FIRST * D1; // ª

const U00AB: u64 = AS_PAIR_MARK + COUNT * 1 + FIRST * D236 + OPENER + MARK * 2 * 2; // «

const U00BA: u64 = AS_MASCULINE + COUNT * 1 + FIRST * D135; // º

const U00BB: u64 = AS_PAIR_MARK + COUNT * 1 + FIRST * D236 + CLOSER + MARK * 2 * 2; // »

const U00BF: u64 = AS_PAIR_MARK + COUNT * 1 + FIRST * D26 + OPENER; // ¿

const U00C1: u64 = AS_CAPITAL + COUNT * 1 + FIRST * D12356; // Á

const U00C9: u64 = AS_CAPITAL + COUNT * 1 + FIRST * D2346; // É

const U00CD: u64 = AS_CAPITAL + COUNT * 1 + FIRST * D34; // Í

const U00D1: u64 = AS_CAPITAL + COUNT * 1 + FIRST * D12456; // Ñ

const U00D3: u64 = AS_CAPITAL + COUNT * 1 + FIRST * D346; // Ó

const U00DA: u64 = AS_CAPITAL + COUNT * 1 + FIRST * D23456; // Ú

const U00DC: u64 = AS_CAPITAL + COUNT * 1 + FIRST * D1256; // Ü

const U00E1: u64 = AS_OTHER_SMALL + COUNT * 1 + FIRST * D12356; // á

const U00E9: u64 = AS_OTHER_SMALL + COUNT * 1 + FIRST * D2346; // é

const U00ED: u64 = AS_OTHER_SMALL + COUNT * 1 + FIRST * D34; // í

const U00F1: u64 = AS_OTHER_SMALL + COUNT * 1 + FIRST * D12456; // ñ

const U00F3: u64 = AS_OTHER_SMALL + COUNT * 1 + FIRST * D346; // ó

const U00FA: u64 = AS_OTHER_SMALL + COUNT * 1 + FIRST * D23456; // ú

const U00FC: u64 = AS_OTHER_SMALL + COUNT * 1 + FIRST * D1256; // ü

const U2014: u64 = AS_DASH + COUNT * 2 + FIRST * D36 + SECOND * D36; // —

const U2018: u64 = AS_PAIR_MARK + COUNT * 2 + FIRST * D6 + SECOND * D236 + OPENER + MARK * 2 * 3; // ‘

const U2019: u64 = AS_PAIR_MARK + COUNT * 2 + FIRST * D6 + SECOND * D236 + CLOSER + MARK * 2 * 3; // ’

const U2020: u64 = AS_OTHER_SIGN + COUNT * 2 + FIRST * D5 + SECOND * D1235; // †

const U2030: u64 = AS_OTHER_SIGN + COUNT * 3 + FIRST * D456 + SECOND * D356 + THIRD * D356; // ‰

const U2044: u64 = AS_BAR; // ⁄

const U20AC: u64 = AS_OTHER_SIGN + COUNT * 2 + FIRST * D456 + SECOND * D15; // €

const U20BF: u64 = AS_OTHER_SIGN + COUNT * 2 + FIRST * D456 + SECOND * D12; // ₿

const UE000: u64 = AS_PAIR_MARK + COUNT * 1 + FIRST * D35 + OPENER + MARK * 2 * 4; // emphasis opens

const UE001: u64 = AS_PAIR_MARK + COUNT * 1 + FIRST * D35 + CLOSER + MARK * 2 * 4; // emphasis closes

// The word of a code point. All below 256 are named, and the others are asked for behind them: once compiled, the table is read as soon as the code point is known to
// be below 256, by the code point itself. (Those without a sign are in two arms, the even ones and the odd: numbers that follow one another in one arm would be
// compiled to a test of their own. All in one `match` would be a jump and no table.)
#[tactic(auto, unfolding(rules::proofs::Plain::one_for, crate::specs::Entries::entry_of, crate::specs::Entries::word, crate::specs::Entries::then_of, crate::specs::Entries::usuals_of, crate::specs::Entries::usual_states, crate::specs::Entries::bits, crate::specs::Entries::mark_number, crate::specs::SignWords::sign_of, rules::specs::Rows::sort_in, rules::specs::Castilian::castilian, rules::specs::Sorts::class, rules::specs::Sorts::is_digit_cell, rules::specs::Signs::own_cells, rules::specs::Signs::lower_cells, rules::specs::Pairs::mark_of, rules::specs::Cells::dots))]
pub fn word_of(point: u32) -> u64
    ensures { result ≡ entry_of castilian (one_for point) }
{
    match point {
        0x20 => U0020, // space
        0x21 => U0021, // !
        0x24 => U0024, // $
        0x25 => U0025, // %
        0x26 => U0026, // &
        0x28 => U0028, // (
        0x29 => U0029, // )
        0x2c => U002C, // ,
        0x2d => U002D, // -
        0x2e => U002E, // .
        0x2f => U002F, // /
        0x30 => U0030, // 0
        0x31 => U0031, // 1
        0x32 => U0032, // 2
        0x33 => U0033, // 3
        0x34 => U0034, // 4
        0x35 => U0035, // 5
        0x36 => U0036, // 6
        0x37 => U0037, // 7
        0x38 => U0038, // 8
        0x39 => U0039, // 9
        0x3a => U003A, // :
        0x3b => U003B, // ;
        0x3c => U003C, // <
        0x3d => U003D, // =
        0x3e => U003E, // >
        0x3f => U003F, // ?
        0x41 => U0041, // A
        0x42 => U0042, // B
        0x43 => U0043, // C
        0x44 => U0044, // D
        0x45 => U0045, // E
        0x46 => U0046, // F
        0x47 => U0047, // G
        0x48 => U0048, // H
        0x49 => U0049, // I
        0x4a => U004A, // J
        0x4b => U004B, // K
        0x4c => U004C, // L
        0x4d => U004D, // M
        0x4e => U004E, // N
        0x4f => U004F, // O
        0x50 => U0050, // P
        0x51 => U0051, // Q
        0x52 => U0052, // R
        0x53 => U0053, // S
        0x54 => U0054, // T
        0x55 => U0055, // U
        0x56 => U0056, // V
        0x57 => U0057, // W
        0x58 => U0058, // X
        0x59 => U0059, // Y
        0x5a => U005A, // Z
        0x5c => U005C, // \
        0x61 => U0061, // a
        0x62 => U0062, // b
        0x63 => U0063, // c
        0x64 => U0064, // d
        0x65 => U0065, // e
        0x66 => U0066, // f
        0x67 => U0067, // g
        0x68 => U0068, // h
        0x69 => U0069, // i
        0x6a => U006A, // j
        0x6b => U006B, // k
        0x6c => U006C, // l
        0x6d => U006D, // m
        0x6e => U006E, // n
        0x6f => U006F, // o
        0x70 => U0070, // p
        0x71 => U0071, // q
        0x72 => U0072, // r
        0x73 => U0073, // s
        0x74 => U0074, // t
        0x75 => U0075, // u
        0x76 => U0076, // v
        0x77 => U0077, // w
        0x78 => U0078, // x
        0x79 => U0079, // y
        0x7a => U007A, // z
        0x7b => U007B, // {
        0x7d => U007D, // }
        0xa1 => U00A1, // ¡
        0xa2 => U00A2, // ¢
        0xa3 => U00A3, // £
        0xa5 => U00A5, // ¥
        0xaa => U00AA, // ª
        0xab => U00AB, // «
        0xba => U00BA, // º
        0xbb => U00BB, // »
        0xbf => U00BF, // ¿
        0xc1 => U00C1, // Á
        0xc9 => U00C9, // É
        0xcd => U00CD, // Í
        0xd1 => U00D1, // Ñ
        0xd3 => U00D3, // Ó
        0xda => U00DA, // Ú
        0xdc => U00DC, // Ü
        0xe1 => U00E1, // á
        0xe9 => U00E9, // é
        0xed => U00ED, // í
        0xf1 => U00F1, // ñ
        0xf3 => U00F3, // ó
        0xfa => U00FA, // ú
        0xfc => U00FC, // ü
        0x0
        | 0x2
        | 0x4
        | 0x6
        | 0x8
        | 0xa
        | 0xc
        | 0xe
        | 0x10
        | 0x12
        | 0x14
        | 0x16
        | 0x18
        | 0x1a
        | 0x1c
        | 0x1e
        | 0x22
        | 0x2a
        | 0x40
        | 0x5e
        | 0x60
        | 0x7c
        | 0x7e
        | 0x80
        | 0x82
        | 0x84
        | 0x86
        | 0x88
        | 0x8a
        | 0x8c
        | 0x8e
        | 0x90
        | 0x92
        | 0x94
        | 0x96
        | 0x98
        | 0x9a
        | 0x9c
        | 0x9e
        | 0xa0
        | 0xa4
        | 0xa6
        | 0xa8
        | 0xac
        | 0xae
        | 0xb0
        | 0xb2
        | 0xb4
        | 0xb6
        | 0xb8
        | 0xbc
        | 0xbe
        | 0xc0
        | 0xc2
        | 0xc4
        | 0xc6
        | 0xc8
        | 0xca
        | 0xcc
        | 0xce
        | 0xd0
        | 0xd2
        | 0xd4
        | 0xd6
        | 0xd8
        | 0xde
        | 0xe0
        | 0xe2
        | 0xe4
        | 0xe6
        | 0xe8
        | 0xea
        | 0xec
        | 0xee
        | 0xf0
        | 0xf2
        | 0xf4
        | 0xf6
        | 0xf8
        | 0xfe => AS_UNLISTED,
        0x1
        | 0x3
        | 0x5
        | 0x7
        | 0x9
        | 0xb
        | 0xd
        | 0xf
        | 0x11
        | 0x13
        | 0x15
        | 0x17
        | 0x19
        | 0x1b
        | 0x1d
        | 0x1f
        | 0x23
        | 0x27
        | 0x2b
        | 0x5b
        | 0x5d
        | 0x5f
        | 0x7f
        | 0x81
        | 0x83
        | 0x85
        | 0x87
        | 0x89
        | 0x8b
        | 0x8d
        | 0x8f
        | 0x91
        | 0x93
        | 0x95
        | 0x97
        | 0x99
        | 0x9b
        | 0x9d
        | 0x9f
        | 0xa7
        | 0xa9
        | 0xad
        | 0xaf
        | 0xb1
        | 0xb3
        | 0xb5
        | 0xb7
        | 0xb9
        | 0xbd
        | 0xc3
        | 0xc5
        | 0xc7
        | 0xcb
        | 0xcf
        | 0xd5
        | 0xd7
        | 0xd9
        | 0xdb
        | 0xdd
        | 0xdf
        | 0xe3
        | 0xe5
        | 0xe7
        | 0xeb
        | 0xef
        | 0xf5
        | 0xf7
        | 0xf9
        | 0xfb
        | 0xfd
        | 0xff => AS_UNLISTED,
        _ => match point {
            0x2014 => U2014, // —
            0x2018 => U2018, // ‘
            0x2019 => U2019, // ’
            0x201c => U00AB, // “ as «
            0x201d => U00BB, // ” as »
            0x2020 => U2020, // †
            0x2030 => U2030, // ‰
            0x2039 => U2018, // ‹ as ‘
            0x203a => U2019, // › as ’
            0x2044 => U2044, // ⁄
            0x20ac => U20AC, // €
            0x20bf => U20BF, // ₿
            0xe000 => UE000, // emphasis opens
            0xe001 => UE001, // emphasis closes
            _ => AS_UNLISTED,
        },
    }
}
