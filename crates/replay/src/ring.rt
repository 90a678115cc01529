// The ring of recent peaks.
//
//   ring.new CAPACITY
//   ring.set STATE            the ring with this state
//   ring.push X
//   ring.reset
//   ring.keep                 a copy is put aside
//
// Each answer shows the state, which is nineteen figures (the capacity, the place, the size and the sixteen that
// are stored); whether it passes; the usual capacity; its own capacity (a reply and the number); the oldest (a reply,
// 0 for none and 1 for one, and its value); how many peaks there are (a reply and the number); and whether it equals
// the one that was put aside (a reply and a bool).

use crate::figures::{Given, Sheet};
use crate::part::{Asked, DONE, Part, quiet, settled};
use saturation_protector_buffer::{Ring, STORAGE};
use units::kinds::Dbfs;

// How many figures a ring's state has.
pub const STATE: usize = 3 + STORAGE;

// The ring, and the one that is put aside.
#[derive(Clone, Copy)]
pub struct Rings {
    ring: Ring,
    aside: Ring,
}

#[derive(Clone, Copy)]
pub enum Question {
    New,
    Set,
    Push,
    Reset,
    Keep,
}

// The ring whose state is given.
pub(crate) fn read(given: &mut Given<'_>) -> Ring {
    let capacity = given.word();
    let place = given.word();
    let size = given.word();
    let mut stored = [0.0; STORAGE];
    given.floats(&mut stored);
    Ring {
        stored,
        capacity,
        place,
        size,
    }
}

// Puts a ring's state.
pub(crate) fn put(ring: Ring, sheet: &mut Sheet) {
    sheet.word(ring.capacity);
    sheet.word(ring.place);
    sheet.word(ring.size);
    sheet.floats(&ring.stored);
}

impl Part for Rings {
    type Question = Question;

    const STATE: usize = STATE;

    fn named(name: &[u8]) -> Option<Asked<Question>> {
        match name {
            b".new" => quiet(Question::New, 1),
            b".set" => quiet(Question::Set, STATE),
            b".push" => quiet(Question::Push, 1),
            b".reset" => quiet(Question::Reset, 0),
            b".keep" => quiet(Question::Keep, 0),
            _ => None,
        }
    }

    fn read(given: &mut Given<'_>) -> Rings {
        Rings {
            ring: read(given),
            aside: read(given),
        }
    }

    fn show(self, sheet: &mut Sheet) {
        let ring = self.ring;
        put(ring, sheet);
        sheet.flag(ring.passes());
        sheet.word(saturation_protector_buffer::usual_capacity());
        let (reply, capacity) = settled(0, ring.capacity());
        sheet.word(reply);
        sheet.word(capacity);
        let (reply, oldest) = settled(None, ring.front());
        sheet.word(reply);
        sheet.flag(oldest.is_some());
        sheet.float(oldest.map_or(0.0, |peak| peak.0));
        let (reply, size) = settled(0, ring.size());
        sheet.word(reply);
        sheet.count(size);
        let (reply, same) = settled(false, ring.equals(self.aside));
        sheet.word(reply);
        sheet.flag(same);
    }

    fn next(
        self,
        question: Question,
        given: &mut Given<'_>,
        _frame: &mut [f32],
        _told: &mut Sheet,
    ) -> (u32, Rings) {
        let Rings { ring, aside } = self;
        let (reply, ring) = match question {
            Question::New => settled(Ring::none(), Ring::new(given.word())),
            Question::Set => (DONE, read(given)),
            Question::Push => settled(ring, ring.push_back(Dbfs(given.float()))),
            Question::Reset => settled(ring, ring.reset()),
            Question::Keep => return (DONE, Rings { ring, aside: ring }),
        };
        (reply, Rings { ring, aside })
    }
}
