// The headroom that the recent peaks ask for.
//
//   protector.new HEADROOM THRESHOLD CAPACITY
//   protector.set STATE               the protector with this state
//   protector.analyze PROBABILITY PEAK LEVEL
//   protector.reset
//   protector.gap
//
// Each answer shows the state, which is forty-eight figures (the headroom to start with, the threshold, the
// count of adjacent speech frames, the published headroom, and then the preliminary state and the reliable
// one, each as its headroom, its ring (the capacity, the place, the size and the sixteen that are stored), the
// largest peak and the time since the last push); whether it passes; and headroom_db (a reply and the headroom).

use crate::figures::{Given, Sheet};
use crate::part::{Asked, DONE, Part, quiet, settled};
use crate::ring;
use saturation_protector::{Peaks, Protector};
use units::kinds::{Db, Dbfs};

#[derive(Clone, Copy)]
pub enum Question {
    New,
    Set,
    Analyze,
    Reset,
    Gap,
}

// How many figures one of the two states has: its ring's, and three more.
const PEAKS: usize = ring::STATE + 3;

// The one of the two states that is given.
fn read_peaks(given: &mut Given<'_>) -> Peaks {
    Peaks {
        headroom: given.float(),
        ring: ring::read(given),
        largest: given.float(),
        elapsed: given.word(),
    }
}

// Puts one of the two states.
fn put_peaks(state: Peaks, sheet: &mut Sheet) {
    sheet.float(state.headroom);
    ring::put(state.ring, sheet);
    sheet.float(state.largest);
    sheet.word(state.elapsed);
}

impl Part for Protector {
    type Question = Question;

    const STATE: usize = 4 + 2 * PEAKS;

    fn named(name: &[u8]) -> Option<Asked<Question>> {
        match name {
            b".new" => quiet(Question::New, 3),
            b".set" => quiet(Question::Set, Protector::STATE),
            b".analyze" => quiet(Question::Analyze, 3),
            b".reset" => quiet(Question::Reset, 0),
            b".gap" => quiet(Question::Gap, 0),
            _ => None,
        }
    }

    fn read(given: &mut Given<'_>) -> Protector {
        Protector {
            initial: given.float(),
            threshold: given.word(),
            count: given.word(),
            headroom: given.float(),
            preliminary: read_peaks(given),
            reliable: read_peaks(given),
        }
    }

    fn show(self, sheet: &mut Sheet) {
        sheet.float(self.initial);
        sheet.word(self.threshold);
        sheet.word(self.count);
        sheet.float(self.headroom);
        put_peaks(self.preliminary, sheet);
        put_peaks(self.reliable, sheet);
        sheet.flag(self.passes());
        let (reply, headroom) = settled(Db(0.0), self.headroom_db());
        sheet.word(reply);
        sheet.float(headroom.0);
    }

    fn next(
        self,
        question: Question,
        given: &mut Given<'_>,
        _frame: &mut [f32],
        _told: &mut Sheet,
    ) -> (u32, Protector) {
        match question {
            Question::New => {
                let made = Protector::new(Db(given.float()), given.word(), given.word());
                settled(Protector::none(), made)
            }
            Question::Set => (DONE, Protector::read(given)),
            Question::Analyze => {
                let made = self.analyze(given.float(), Dbfs(given.float()), Dbfs(given.float()));
                settled(self, made)
            }
            Question::Reset => settled(self, self.reset()),
            Question::Gap => settled(self, self.gap()),
        }
    }
}
