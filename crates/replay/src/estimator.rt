// The level estimator.
//
//   estimator.new SAMPLES
//   estimator.set STATE           the estimator with this state
//   estimator.samples SAMPLES     set_samples_per_channel
//   estimator.reset
//   estimator.level FRAME         compute_level: twenty results, the envelope
//
// Each answer shows the state, which is three figures (the level, the samples of a channel and those of
// a sub-frame); whether it passes; and last_audio_level (a reply and the level).

use crate::figures::{Given, Sheet};
use crate::part::{Asked, DONE, Part, loud, quiet, settled};
use fixed_digital_level_estimator::{Estimator, Levels};
use units::kinds::LinearS16;

#[derive(Clone, Copy)]
pub enum Question {
    New,
    Set,
    Samples,
    Reset,
    Level,
}

// Puts an estimator's state.
pub(crate) fn put(estimator: Estimator, sheet: &mut Sheet) {
    sheet.float(estimator.level);
    sheet.count(estimator.samples);
    sheet.count(estimator.part);
}

impl Part for Estimator {
    type Question = Question;

    const STATE: usize = 3;

    fn named(name: &[u8]) -> Option<Asked<Question>> {
        match name {
            b".new" => quiet(Question::New, 1),
            b".set" => quiet(Question::Set, Estimator::STATE),
            b".samples" => quiet(Question::Samples, 1),
            b".reset" => quiet(Question::Reset, 0),
            b".level" => loud(Question::Level, 2),
            _ => None,
        }
    }

    fn read(given: &mut Given<'_>) -> Estimator {
        Estimator {
            level: given.float(),
            samples: given.count(),
            part: given.count(),
        }
    }

    fn show(self, sheet: &mut Sheet) {
        put(self, sheet);
        sheet.flag(self.passes());
        let (reply, level) = settled(LinearS16(0.0), self.last_audio_level());
        sheet.word(reply);
        sheet.float(level.0);
    }

    fn next(
        self,
        question: Question,
        given: &mut Given<'_>,
        frame: &mut [f32],
        told: &mut Sheet,
    ) -> (u32, Estimator) {
        match question {
            Question::New => settled(Estimator::none(), Estimator::new(given.count())),
            Question::Set => (DONE, Estimator::read(given)),
            Question::Samples => settled(self, self.set_samples_per_channel(given.count())),
            Question::Reset => settled(self, self.reset()),
            Question::Level => {
                let still = Levels {
                    estimator: self,
                    envelope: [LinearS16(0.0); 20],
                };
                let found = self.compute_level(frame, given.count(), given.count());
                let (reply, levels) = settled(still, found);
                for level in levels.envelope {
                    told.float(level.0);
                }
                (reply, levels.estimator)
            }
        }
    }
}
