// The sequence of UTF-8 at a place of some bytes, and its code point. What is well formed is Unicode's table 3-7 (specs/Forms.antt).
#![tactic(auto)]

ghost use Rattle.std.specs.Prelude.{◌≡◌, ◌-◌, ◌<◌, Some, length, drop};
ghost use Rattle.sequences.specs.Leads.{later_form, Begun, LeadIs, JoinedIs, SequenceIs, NextIs};

use encoding::{LATER_MARK, LATER_VALUES, MARK_1, MARK_2, MARK_3, MARK_4, REPLACEMENT};

// What table 3-7 says of a first byte: how many bytes come behind it, the range of the first of these, and the mark in front of the first byte's own bits.
#[derive(Clone, Copy)]
pub struct Lead {
    pub later: usize,
    pub least: u8,
    pub most: u8,
    pub mark: u8,
}

// The code point at a place, and the place behind its bytes.
#[derive(Clone, Copy)]
pub struct Next {
    pub point: u32,
    pub next: usize,
}

// All later bytes but the second are in this range.
const LATER_LEAST: u8 = LATER_MARK;

const LATER_MOST: u8 = 0xbf;

fn begins(later: usize, least: u8, most: u8, mark: u8) -> Option<Lead>
    ensures { result ≡ Some (record { later = later; least = least; most = most; mark = mark }) }
{
    Some(Lead {
        later,
        least,
        most,
        mark,
    })
}

// Table 3-7, by the first byte; none, where no sequence begins with it.
fn lead_of(first: u8) -> Option<Lead>
    ensures { LeadIs first result }
{
    match first {
        0x00..=0x7f => begins(0, LATER_LEAST, LATER_MOST, MARK_1),
        0xc2..=0xdf => begins(1, LATER_LEAST, LATER_MOST, MARK_2),
        0xe0 => begins(2, 0xa0, LATER_MOST, MARK_3),
        0xe1..=0xec => begins(2, LATER_LEAST, LATER_MOST, MARK_3),
        0xed => begins(2, LATER_LEAST, 0x9f, MARK_3),
        0xee..=0xef => begins(2, LATER_LEAST, LATER_MOST, MARK_3),
        0xf0 => begins(3, 0x90, LATER_MOST, MARK_4),
        0xf1..=0xf3 => begins(3, LATER_LEAST, LATER_MOST, MARK_4),
        0xf4 => begins(3, LATER_LEAST, 0x8f, MARK_4),
        _ => None,
    }
}

impl Lead {
    // The code point of a sequence, by its first byte and all its later ones; none, where one of these is not in its range.
    fn point(self, first: u8, later: &[u8]) -> Option<u32>
        requires begun { Begun first self.later self.least self.most self.mark }
        requires whole { length later.now ≡ self.later }
        ensures { JoinedIs (later_form self.later self.least self.most) (first - self.mark) later.now result }
    {
        let mut value = u32::from(first - self.mark);
        let mut least = self.least;
        let mut most = self.most;
        for byte in later {
            if *byte < least || most < *byte {
                return None;
            }
            value = value * LATER_VALUES + u32::from(*byte - LATER_MARK);
            least = LATER_LEAST;
            most = LATER_MOST;
        }
        Some(value)
    }
}

// The well-formed sequence at a place, if one begins there.
fn sequence_at(bytes: &[u8], at: usize) -> Option<Next>
    requires { at < length bytes.now }
    ensures { SequenceIs bytes.now at result }
{
    let first = bytes[at];
    let lead = lead_of(first)?;
    let from = at + 1;
    let next = from + lead.later;
    let later = bytes.get(from..next)?;
    let point = lead.point(first, later)?;
    Some(Next { point, next })
}

// The code point at a place, and the place behind it. "A byte outside any well-formed sequence counts as one U+FFFD." Two wrong programs that the promise shuts out: one that shows one U+FFFD for
// several bytes, and one that takes an overlong sequence or a surrogate for a code point.
pub fn next_at(bytes: &[u8], at: usize) -> Next
    requires { at < length bytes.now }
    ensures { NextIs bytes.now (drop at bytes.now) at result }
{
    sequence_at(bytes, at).unwrap_or(Next {
        point: REPLACEMENT,
        next: at + 1,
    })
}
