// A vector, and its lines in their order.
ghost use Rattle.std.specs.Prelude.{◌≤◌, IfSome, length};

use crate::points::{Base, Written, number_in};

// A vector as far as its lines have come, by what they say.
#[derive(Clone, Copy)]
pub struct Vector<'a> {
    pub name: &'a [u8],
    print: Option<Written<'a>>,
    times: Option<&'a [u8]>,
    pub before: Option<&'a [u8]>,
}

impl<'a> Vector<'a> {
    // A vector of which no line but `name ..` has come.
    pub fn named(name: &'a [u8]) -> Vector<'a> {
        Vector {
            name,
            print: None,
            times: None,
            before: None,
        }
    }

    // With a line more, which is none of the last. None: it may not stand here.
    pub fn with_line(self, word: &[u8], rest: &'a [u8]) -> Option<Vector<'a>> {
        match word {
            b"print" => self.with_print(Written::Text(rest)),
            b"points" => self.with_print(Written::Points(rest)),
            b"times" => self.with_times(rest),
            b"before" => self.with_before(rest),
            _ => None,
        }
    }

    fn with_print(self, print: Written<'a>) -> Option<Vector<'a>> {
        if self.print.is_some() {
            return None;
        }
        Some(Vector {
            print: Some(print),
            ..self
        })
    }

    fn with_times(self, times: &'a [u8]) -> Option<Vector<'a>> {
        if self.print.is_none() || self.times.is_some() || self.before.is_some() {
            return None;
        }
        if number_in(times, Base::Ten) == Some(0) {
            return None;
        }
        Some(Vector {
            times: Some(times),
            ..self
        })
    }

    fn with_before(self, before: &'a [u8]) -> Option<Vector<'a>> {
        if self.print.is_none() || self.before.is_some() {
            return None;
        }
        Some(Vector {
            before: Some(before),
            ..self
        })
    }

    // How often the print and the cells are repeated: once, where no line says. None: the number is not in its form.
    fn repeats(self) -> Option<u32> {
        match self.times {
            Some(part) => number_in(part, Base::Ten),
            None => Some(1),
        }
    }

    // Puts the print at the front of `text`: how many code points it has. None: a line is not there or not in its form, or there is no room.
    pub fn put_print(self, text: &mut [u32]) -> Option<usize>
        ensures { IfSome result (λ n. n ≤ length text.new) }
    {
        self.print?.put(self.repeats()?, text)
    }

    // Puts the cells at the front of `cells`, and before them those that stand there once: how many they are. None: a line is not in its form, or there is no room.
    pub fn put_cells(self, part: &[u8], cells: &mut [u32]) -> Option<usize>
        ensures { IfSome result (λ n. n ≤ length cells.new) }
    {
        let before = Written::Text(self.before.unwrap_or(&[])).put(1, cells)?;
        let count = Written::Text(part).put(self.repeats()?, &mut cells[before..])?;
        Some(before + count)
    }
}
