// Code points and numbers from the parts of a line.
ghost use Rattle.std.specs.Prelude.{◌≤◌, IfSome, length};

use crate::lines::BLANK;

// In which base a number is written.
#[derive(Clone, Copy)]
pub enum Base {
    Ten = 10,
    Sixteen = 16,
}

// The number that a part writes in a base. None: it is not in its form. No number of a vector needs more bits: "A length above 4,294,967,295 is reported as that
// number."
pub fn number_in(part: &[u8], base: Base) -> Option<u32> {
    if part.is_empty() {
        return None;
    }
    let base = base as u32;
    let mut number: u32 = 0;
    for byte in part {
        let digit = char::from(*byte).to_digit(base)?;
        number = number.checked_mul(base)?.checked_add(digit)?;
    }
    Some(number)
}

// The code points of a print or a row, as a vector writes them.
#[derive(Clone, Copy)]
pub enum Written<'a> {
    // as text
    Text(&'a [u8]),
    // as numbers in base sixteen, one blank between two
    Points(&'a [u8]),
}

// Code points go to the front of `out`: each function answers how many they are. None: the part is not in its form, or there is no room.

fn put_numbers(part: &[u8], out: &mut [u32]) -> Option<usize>
    ensures { IfSome result (λ n. n ≤ length out.new) }
{
    // counted here, and not by `enumerate`: how many they are is the answer
    let mut count = 0;
    for number in part.split_inclusive(|byte| *byte == BLANK) {
        if count == out.len() {
            return None;
        }
        let digits = number.strip_suffix(&[BLANK]).unwrap_or(number);
        out[count] = number_in(digits, Base::Sixteen)?;
        count += 1;
    }
    Some(count)
}

// UTF-8. A byte outside any well-formed sequence counts as U+FFFD.
fn put_text(part: &[u8], out: &mut [u32]) -> Option<usize>
    ensures { IfSome result (λ n. n ≤ length out.new) }
{
    if out.len() < part.len() {
        return None;
    }
    Some(utf8::decode(part, out))
}

impl<'a> Written<'a> {
    fn put_once(self, out: &mut [u32]) -> Option<usize>
        ensures { IfSome result (λ n. n ≤ length out.new) }
    {
        match self {
            Written::Text(part) => put_text(part, out),
            Written::Points(part) => put_numbers(part, out),
        }
    }

    // The code points so many times.
    pub fn put(self, times: u32, out: &mut [u32]) -> Option<usize>
        ensures { IfSome result (λ n. n ≤ length out.new) }
    {
        let once = self.put_once(out)?;
        let count = once.checked_mul(times as usize)?;
        if out.len() < count {
            return None;
        }
        // place by place: what is copied grows with what is written, and `copy_within` takes it as it was
        for place in once..count {
            out[place] = out[place - once];
        }
        Some(count)
    }
}
