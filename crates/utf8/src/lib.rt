// UTF-8: the code points of any bytes. What stands at a place is read in `sequences`; the bytes of a code point are in `encoding`.
#![tactic(auto)]

ghost use Rattle.std.specs.Prelude.{◌≡◌, ◌≤◌, length, set};
ghost use Rattle.std.specs.Iterator.{YieldsFirst, item_count};
ghost use Rattle.utf8.specs.Decoding.{decoded, Decoded};

// The code points of the bytes that are left, one by one, from the front.
#[derive(Drop)]
struct Points<'a> {
    bytes: &'a [u8],
}

impl<'a> Iterator for Points<'a> {
    type Item = u32;

    ghost next_gives = { YieldsFirst (λ s. decoded s.bytes.now) };

    ghost remaining = { item_count (λ s. decoded s.bytes.now) };

    fn next(&mut self) -> Option<u32> {
        if self.bytes.is_empty() {
            return None;
        }
        let found = sequences::next_at(self.bytes, 0);
        self.bytes = &self.bytes[found.next..];
        Some(found.point)
    }
}

// Stores a code point at a place of the text, if it has that place. It is stored by index, since no proof knows what is written through `get_mut`.
fn store(text: &mut [u32], place: usize, point: u32)
    ensures { text.new ≡ set text.old place point }
{
    if place < text.len() {
        text[place] = point;
    }
}

// The code points of any bytes, written from the first element on, as far as there is room, and how many there are. Two wrong programs that the promise shuts
// out: one that shows one U+FFFD for several bytes, and one that takes an overlong sequence or a surrogate for a code point.
pub fn decode(bytes: &[u8], text: &mut [u32]) -> usize
    ensures decoded { Decoded bytes.now text.old result text.new }
    ensures upper_bound { result ≤ length bytes.now }
{
    // The count is the answer, so it outlives the loop.
    let mut count = 0;
    for point in (Points { bytes }) {
        store(text, count, point);
        count += 1;
    }
    count
}
