// The parts of a line of the vector file.

pub const BLANK: u8 = b' ';

const COMMENT: u8 = b'#';

// The first word of a line, which ends before a blank or any lower byte. A comment has none.
pub fn first_word(line: &[u8]) -> &[u8] {
    if line.first() == Some(&COMMENT) {
        return &[];
    }
    match line.iter().position(|byte| *byte <= BLANK) {
        Some(end) => &line[..end],
        None => line,
    }
}

// What stands before the first blank of a part, and what behind it.
pub fn around_blank(part: &[u8]) -> (&[u8], &[u8]) {
    match part.iter().position(|byte| *byte == BLANK) {
        Some(blank) => (&part[..blank], &part[blank + 1..]),
        None => (part, &[]),
    }
}

// What follows the first word of a line and its blank.
pub fn behind_word(line: &[u8]) -> &[u8] {
    around_blank(line).1
}
