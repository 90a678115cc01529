// A line of a question taken apart, and the lines of the answers put together.

use crate::figures::Sheet;
use arrayvec::ArrayVec;

// What stands before the first such byte, and the rest from it on: nothing where there is none.
pub(crate) fn split(line: &[u8], byte: u8) -> (&[u8], &[u8]) {
    let at = line.iter().position(|b| *b == byte);
    at.and_then(|n| line.split_at_checked(n))
        .unwrap_or((line, &[]))
}

// How many bytes of answers there is room for.
const ROOM: usize = 65536;

// So many bytes of answers may wait, so that one more answer fits behind them.
const ENOUGH: usize = 30000;

// The answers that wait to be written.
#[derive(Drop)]
pub struct Answers {
    bytes: ArrayVec<u8, ROOM>,
}

impl Answers {
    // None.
    pub(crate) fn new() -> Answers {
        Answers {
            bytes: ArrayVec::new(),
        }
    }

    // Writes those that wait. Where that fails, nothing comes of it.
    pub(crate) fn write(&mut self, rt: &HostRuntime) {
        let _ = rt.write_all(self.bytes.as_slice());
        self.bytes.clear();
    }

    // Makes room for one more: where it might not fit behind those that wait, they are written first.
    pub(crate) fn make_room(&mut self, rt: &HostRuntime) {
        if ENOUGH <= self.bytes.len() {
            self.write(rt);
        }
    }

    // Puts a figure, behind a byte that parts it from what is before it.
    fn put(&mut self, figure: u32) {
        let _ = self.bytes.try_extend_from_slice(&words::spelled(figure));
        let _ = self.bytes.try_push(b' ');
    }

    // Puts the answer to a question: its figures, and the samples of its frame.
    pub(crate) fn answer(&mut self, sheet: &Sheet, frame: &[f32]) {
        for figure in sheet.figures() {
            self.put(*figure);
        }
        for x in frame {
            self.put(bits::bits_of(*x));
        }
        let _ = self.bytes.pop();
        let _ = self.bytes.try_push(b'\n');
    }

    // Puts the answer to what is no question.
    pub(crate) fn no_question(&mut self) {
        let _ = self.bytes.try_extend_from_slice(b"?\n");
    }
}
