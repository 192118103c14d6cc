// Printing on a slice that is lent, byte behind byte: numbers, code points, cells. Where there is no room for a byte it is left out, and the place stays; a caller that lends
// enough room has all of it printed (specs/Printed.antt).
#![tactic(auto)]

ghost use Rattle.std.specs.Prelude.{[], ◌∷◌, ◌≡◌, ◌+◌, ℕ};
ghost use Rattle.encoding.specs.Encoding.{encoded_of};
ghost use Rattle.printing.specs.Printed.{decimal_of, pattern_of, character_bytes};
ghost use Rattle.printing.specs.Pages.{PagePrints};

// "one character U+2800 plus the cell for each cell"
const FIRST_PATTERN: u32 = 0x2800;

// What is printed as one character.
pub trait Character {
    ghost shown: { Self → ℕ };

    // The code point of the character.
    fn character(&self) -> u32
        ensures { result ≡ shown self.now };
}

// "one character U+2800 plus the cell for each cell"
impl Character for u8 {
    ghost shown = { pattern_of };

    fn character(&self) -> u32 {
        FIRST_PATTERN + u32::from(*self)
    }
}

// A code point of a text, as it is.
impl Character for u32 {
    ghost shown = { λ point. point };

    fn character(&self) -> u32 {
        *self
    }
}

// What is printed on: a slice that is lent, and the place where the next byte goes.
#[derive(Drop)]
pub struct Page<'a> {
    pub out: &'a mut [u8],
    pub at: usize,
}

impl<'a> Page<'a> {
    // From the front of the slice on.
    pub fn new(out: &'a mut [u8]) -> Page<'a>
        ensures same { result.out.ghost_name ≡ out.entry.ghost_name }
        ensures lent { result.out.now ≡ out.old }
        ensures front { result.at ≡ 0 }
    {
        Page { out, at: 0 }
    }

    // Where there is no room nothing is printed.
    pub fn byte(&mut self, byte: u8)
        ensures { PagePrints self.old (byte ∷ []) self.new }
    {
        let out = &mut *self.out;
        if self.at < out.len() {
            out[self.at] = byte;
            self.at += 1;
        }
    }

    pub fn bytes(&mut self, bytes: &[u8])
        ensures { PagePrints self.old bytes.now self.new }
    {
        for byte in bytes {
            self.byte(*byte);
        }
    }

    // A code point, in UTF-8.
    pub fn point(&mut self, point: u32)
        ensures { PagePrints self.old (encoded_of point) self.new }
    {
        let mut bytes = [0; 4];
        let n = encoding::encode(point, &mut bytes);
        self.bytes(&bytes[..n]);
    }

    // A number, in decimal.
    pub fn number(&mut self, n: usize)
        ensures { PagePrints self.old (decimal_of n) self.new }
    {
        let mut digits = [0; 20];
        let count = io::decimal(n as u64, &mut digits); // there is no `From` of a usize
        self.bytes(&digits[..count]);
    }

    // The cells of a row or the code points of a text, as characters.
    pub fn characters<T: Character>(&mut self, items: &[T])
        ensures { PagePrints self.old (character_bytes T.shown items.now) self.new }
    {
        for item in items {
            self.point(item.character());
        }
    }
}
