// The bytes of a code point in UTF-8 (Unicode, table 3-6).
#![tactic(auto)]

ghost use Rattle.std.specs.Prelude.{◌≡◌, ◌+◌, ◌%◌, ◌≤◌, ◌<◌, length};
ghost use Rattle.encoding.specs.Encoding.{is_scalar, bytes_of, Encoded, Wrote};

// A number that is no code point of UTF-8 is shown as this one; so is "a byte outside any well-formed sequence" (crate `sequences`).
pub const REPLACEMENT: u32 = 0xfffd;

// The marks of table 3-6: what stands before the bits in the first byte of a sequence of one to four bytes, and in every later one.
pub const MARK_1: u8 = 0x00;

pub const MARK_2: u8 = 0xc0;

pub const MARK_3: u8 = 0xe0;

pub const MARK_4: u8 = 0xf0;

pub const LATER_MARK: u8 = 0x80;

// So many values have the six bits of a later byte.
pub const LATER_VALUES: u32 = 64;

// The last code points of one, two and three bytes.
const LAST_OF_ONE: u32 = 0x7f;

const LAST_OF_TWO: u32 = 0x7ff;

const LAST_OF_THREE: u32 = 0xffff;

// A later byte: its mark, and six bits.
fn later_byte(bits: u32) -> u8
    ensures { result ≡ 0x80 + bits % 64 }
{
    LATER_MARK + (bits % LATER_VALUES) as u8
}

// Whether UTF-8 has bytes for a number: Unicode's scalar values, all code points but the surrogates.
#[tactic(auto, using(crate::proofs::Encoding::is_char))]
fn is_scalar(point: u32) -> bool
    ensures { result ≡ is_scalar point }
{
    char::from_u32(point).is_some()
}

// Stores a row of at most four bytes from the first element on, as far as there is room, and answers how many it has.
fn put(row: &[u8], bytes: &mut [u8]) -> usize
    requires { length row.now ≤ 4 }
    ensures { Wrote row.now bytes.old result bytes.new }
{
    let fits = bytes.len().min(row.len());
    bytes[..fits].copy_from_slice(&row[..fits]);
    row.len()
}

// The bytes of a scalar value, by table 3-6. The table stands here, and std's `encode_utf8` is not called, since must-fail/overlong_bytes_written.edit is about it.
fn put_bytes(point: u32, bytes: &mut [u8]) -> usize
    requires { point < 0x110000 }
    ensures { Wrote (bytes_of point) bytes.old result bytes.new }
{
    match point {
        ..=LAST_OF_ONE => put(&[point as u8], bytes),
        ..=LAST_OF_TWO => put(&[MARK_2 + (point / 0x40) as u8, later_byte(point)], bytes),
        ..=LAST_OF_THREE => put(
            &[
                MARK_3 + (point / 0x1000) as u8,
                later_byte(point / 0x40),
                later_byte(point),
            ],
            bytes,
        ),
        _ => put(
            &[
                MARK_4 + (point / 0x40000) as u8,
                later_byte(point / 0x1000),
                later_byte(point / 0x40),
                later_byte(point),
            ],
            bytes,
        ),
    }
}

// The bytes of a code point, written from the first element on, as far as there is room, and how many there are, which is at most 4; a number that is no scalar
// value is shown as U+FFFD. Two wrong programs that the promise shuts out: one that gives a surrogate three bytes of its own, and one that takes more bytes than
// are needed.
pub fn encode(point: u32, bytes: &mut [u8]) -> usize
    ensures encoded { Encoded point bytes.old result bytes.new }
    ensures upper_bound { result ≤ 4 }
{
    if is_scalar(point) {
        return put_bytes(point, bytes);
    }
    put_bytes(REPLACEMENT, bytes)
}
