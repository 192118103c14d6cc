// Normalised print (paper 01, "Normalised print"): its length, and a normalised copy.
// A new replacement by one code point is a constant and an arm of `replacement` here, in the order of the list, and a line of
// crates/rules/specs/Normal.antt. Only … becomes more than one: `ELLIPSIS_ADDS` and `put_points` say so.
#![tactic(auto)]

ghost use Rattle.std.specs.Prelude.{◌≡◌, ◌&&◌, [], ◌∷◌, ◌≤◌, length};
ghost use Rattle.rows.specs.Laid.{laid};
ghost use Rattle.rules.specs.Normal.{replacements, replaced_by, is_digit_point, is_ordinal_point, becomes, normal_of};
ghost use Rattle.rules.specs.Refusals.{reported};
ghost use Rattle.normal.specs.Counts.{greatest_count, ellipses_in, stops_in};
ghost use Rattle.normal.specs.Copies.{normalised_of, copy_of};

// The code points that normalising knows.
const FULL_STOP: u32 = 0x2e; // .

const DIGIT_0: u32 = 0x30; // 0

const DIGIT_9: u32 = 0x39; // 9

const FEMININE: u32 = 0xaa; // ª

const LEFT_GUILLEMET: u32 = 0xab; // «

const MASCULINE: u32 = 0xba; // º

const RIGHT_GUILLEMET: u32 = 0xbb; // »

const LEFT_SINGLE: u32 = 0x2018; // ‘

const RIGHT_SINGLE: u32 = 0x2019; // ’

const LEFT_DOUBLE: u32 = 0x201c; // “

const RIGHT_DOUBLE: u32 = 0x201d; // ”

const ELLIPSIS: u32 = 0x2026; // …

const LEFT_ANGLE: u32 = 0x2039; // ‹

const RIGHT_ANGLE: u32 = 0x203a; // ›

// "U+2026 becomes three full stops": so the text gets two code points more.
const ELLIPSIS_ADDS: usize = 2;

// "A length above 4,294,967,295 is reported as that number."
const GREATEST_REPORTED: usize = 4294967295;

// "normalised text above 4,096 code points"
const LONGEST_TEXT: usize = 4096;

// Why `normalise` made nothing: the normalised print is above 4,096 code points, or above the room lent. Its length, as it is reported.
#[derive(Clone, Copy, PartialEq, Eq)]
pub struct NoRoom {
    pub length: usize,
}

// A digit is 0 to 9 and nothing else.
fn is_digit(point: u32) -> bool
    ensures { result ≡ is_digit_point point }
{
    DIGIT_0 <= point && point <= DIGIT_9
}

// º or ª.
fn is_ordinal(point: u32) -> bool
    ensures { result ≡ is_ordinal_point point }
{
    point == MASCULINE || point == FEMININE
}

// Does a full stop come before this code point?
fn gets_stop(after_digit: bool, point: u32) -> bool
    ensures { result ≡ (after_digit && is_ordinal_point point) }
{
    after_digit && is_ordinal(point)
}

// What a code point becomes that becomes one.
fn replacement(point: u32) -> u32
    requires { length (replaced_by replacements point) ≡ 1 }
    ensures { replaced_by replacements point ≡ result ∷ [] }
{
    match point {
        LEFT_DOUBLE => LEFT_GUILLEMET,
        RIGHT_DOUBLE => RIGHT_GUILLEMET,
        LEFT_ANGLE => LEFT_SINGLE,
        RIGHT_ANGLE => RIGHT_SINGLE,
        _ => point,
    }
}

// Writes what a code point becomes at the front of what it is lent.
fn put_points(text: &mut [u32], after_digit: bool, point: u32) -> usize
    requires { length (becomes after_digit point) ≤ length text.old }
    ensures { (result ≡ length (becomes after_digit point)) × (text.new ≡ laid (becomes after_digit point) text.old) }
{
    if gets_stop(after_digit, point) {
        text[0] = FULL_STOP;
        text[1] = point;
        2
    } else if point == ELLIPSIS {
        text[0] = FULL_STOP;
        text[1] = FULL_STOP;
        text[2] = FULL_STOP;
        3
    } else {
        text[0] = replacement(point);
        1
    }
}

// How many … the print has. It is counted in 32 bits, so that the machine can take several code points at once. (A chain of `filter` and `count` takes one at a time:
// three times as long, and more than twice as long as plain Rust.)
fn ellipses_in(print: &[u32]) -> u32
    requires { length print.now ≤ greatest_count }
    ensures { result ≡ ellipses_in print.now }
{
    let mut count: u32 = 0;
    for point in print {
        if *point == ELLIPSIS {
            count += 1;
        }
    }
    count
}

// How many º and ª of the print get a full stop, counted in the same way. The first code point gets none: no digit is before it.
fn stops_in(print: &[u32]) -> u32
    requires { length print.now ≤ greatest_count }
    ensures { result ≡ stops_in print.now }
{
    let mut count: u32 = 0;
    for i in 1..print.len() {
        if gets_stop(is_digit(print[i - 1]), print[i]) {
            count += 1;
        }
    }
    count
}

// The length of the normalised print, as it is reported. Normalising takes nothing away, so print of the greatest length or more need not be counted; in
// shorter print both counts fit in 32 bits.
pub fn normal_length(print: &[u32]) -> usize
    ensures { result ≡ reported (length (normal_of print.now)) }
{
    if GREATEST_REPORTED <= print.len() {
        return GREATEST_REPORTED;
    }
    let n = print.len() + ELLIPSIS_ADDS * ellipses_in(print) as usize + stops_in(print) as usize;
    n.min(GREATEST_REPORTED)
}

// Writes the normalised print from the first element on: what each code point becomes goes to its own stretch. The answer is its length.
fn copy(print: &[u32], text: &mut [u32]) -> usize
    requires { length (normal_of print.now) ≤ length text.old }
    ensures { (result ≡ length (normal_of print.now)) × (text.new ≡ laid (normal_of print.now) text.old) }
{
    let mut after_digit = false;
    let mut n: usize = 0;
    for point in print {
        n += put_points(&mut text[n..], after_digit, *point);
        after_digit = is_digit(*point);
    }
    n
}

// The normalised print, written to what is lent from its first element on, with its length; or, where it is above 4,096 code points or there is no room for
// it, its length as it is reported, and what is lent is as it was.
pub fn normalise(print: &[u32], text: &mut [u32]) -> Result<usize, NoRoom>
    ensures { (result ≡ normalised_of print.now (length text.old)) × (text.new ≡ copy_of print.now text.old) }
{
    let length = normal_length(print);
    if LONGEST_TEXT < length || text.len() < length {
        return Err(NoRoom { length });
    }
    Ok(copy(print, text))
}
