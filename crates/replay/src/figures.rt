// The figures of a question, and those of an answer, in a row. A figure is a number of 32 bits: a float is
// its bits, a bool is 0 or 1, and a number of 64 bits is two figures, the higher half first.

use arrayvec::ArrayVec;

// A figure as it stands in a line: a space and eight hexadecimal digits.
type Spelled = [u8; 9];

// The number of a figure: none where it is not spelled so.
fn number(figure: &Spelled) -> Option<u32> {
    if figure[0] == b' ' {
        words::read(figure, 1).ok()
    } else {
        None
    }
}

// The figures of a question that are still to be read. Behind the last one every figure is 0.
#[derive(Clone, Copy)]
pub struct Given<'a> {
    figures: &'a [Spelled],
}

impl<'a> Given<'a> {
    // No figures.
    pub(crate) fn none() -> Given<'a> {
        Given { figures: &[] }
    }

    // Those that stand in a line behind the name. None where anything else stands there.
    pub(crate) fn of(line: &'a [u8]) -> Option<Given<'a>> {
        let (figures, rest) = line.as_chunks::<9>();
        if rest.is_empty() && figures.iter().all(|figure| number(figure).is_some()) {
            Some(Given { figures })
        } else {
            None
        }
    }

    // The first so many, and those that follow them. None where there are fewer.
    pub(crate) fn split(self, n: usize) -> Option<(Given<'a>, Given<'a>)> {
        let (first, rest) = self.figures.split_at_checked(n)?;
        Some((Given { figures: first }, Given { figures: rest }))
    }

    // How many there are.
    pub(crate) fn len(self) -> usize {
        self.figures.len()
    }

    // Takes the next figure.
    pub(crate) fn word(&mut self) -> u32 {
        match self.figures.split_first() {
            Some((figure, rest)) => {
                self.figures = rest;
                number(figure).unwrap_or(0)
            }
            None => 0,
        }
    }

    // Takes a float.
    pub(crate) fn float(&mut self) -> f32 {
        bits::float_of(self.word())
    }

    // Takes a count.
    pub(crate) fn count(&mut self) -> usize {
        self.word() as usize
    }

    // Takes a bool: whatever is not 0 is yes.
    pub(crate) fn flag(&mut self) -> bool {
        self.word() != 0
    }

    // Takes a number of 64 bits.
    pub(crate) fn long(&mut self) -> u64 {
        let high = u64::from(self.word());
        let low = u64::from(self.word());
        high * 4294967296 + low
    }

    // Takes so many floats.
    pub(crate) fn floats(&mut self, list: &mut [f32]) {
        for x in list {
            *x = self.float();
        }
    }
}

// The figures of an answer. The longest has 118, but for the samples of a frame.
#[derive(Drop)]
pub struct Sheet {
    figures: ArrayVec<u32, 128>,
}

impl Sheet {
    // None yet.
    pub(crate) fn new() -> Sheet {
        Sheet {
            figures: ArrayVec::new(),
        }
    }

    // All that were put.
    pub(crate) fn figures(&self) -> &[u32] {
        self.figures.as_slice()
    }

    // Puts those of another sheet.
    pub(crate) fn put(&mut self, other: &Sheet) {
        let _ = self.figures.try_extend_from_slice(other.figures());
    }

    // Puts a number.
    pub(crate) fn word(&mut self, n: u32) {
        let _ = self.figures.try_push(n);
    }

    // Puts a float.
    pub(crate) fn float(&mut self, x: f32) {
        self.word(bits::bits_of(x));
    }

    // Puts some floats.
    pub(crate) fn floats(&mut self, list: &[f32]) {
        for x in list {
            self.float(*x);
        }
    }

    // Puts the lower half of a count.
    pub(crate) fn count(&mut self, n: usize) {
        self.word((n % 4294967296) as u32);
    }

    // Puts a bool.
    pub(crate) fn flag(&mut self, b: bool) {
        self.word(u32::from(b));
    }

    // Puts a number of 64 bits.
    pub(crate) fn long(&mut self, n: u64) {
        self.word((n / 4294967296) as u32);
        self.word((n % 4294967296) as u32);
    }
}
