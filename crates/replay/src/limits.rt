// The limiter.
//
//   limiter.new SAMPLES
//   limiter.set STATE             the limiter with this state
//   limiter.samples SAMPLES       set_samples_per_channel
//   limiter.reset
//   limiter.process FRAME
//
// Each answer shows the state, which is sixteen figures (the carried factor, the level estimator's three
// and the curve's twelve); whether it passes; and last_audio_level (a reply and the level).

use crate::figures::{Given, Sheet};
use crate::part::{Asked, DONE, Part, loud, quiet, settled};
use crate::{curve, estimator};
use fixed_digital_level_estimator::Estimator;
use interpolated_gain_curve::Curve;
use limiter::Limiter;
use units::kinds::LinearS16;

#[derive(Clone, Copy)]
pub enum Question {
    New,
    Set,
    Samples,
    Reset,
    Process,
}

impl Part for Limiter {
    type Question = Question;

    const STATE: usize = 1 + Estimator::STATE + Curve::STATE;

    fn named(name: &[u8]) -> Option<Asked<Question>> {
        match name {
            b".new" => quiet(Question::New, 1),
            b".set" => quiet(Question::Set, Limiter::STATE),
            b".samples" => quiet(Question::Samples, 1),
            b".reset" => quiet(Question::Reset, 0),
            b".process" => loud(Question::Process, 2),
            _ => None,
        }
    }

    fn read(given: &mut Given<'_>) -> Limiter {
        let carried = given.float();
        Limiter {
            estimator: Estimator::read(given),
            curve: Curve::read(given),
            carried,
        }
    }

    fn show(self, sheet: &mut Sheet) {
        sheet.float(self.carried);
        estimator::put(self.estimator, sheet);
        curve::put(self.curve, sheet);
        sheet.flag(self.passes());
        let (reply, level) = settled(LinearS16(0.0), self.last_audio_level());
        sheet.word(reply);
        sheet.float(level.0);
    }

    fn next(
        self,
        question: Question,
        given: &mut Given<'_>,
        frame: &mut [f32],
        _told: &mut Sheet,
    ) -> (u32, Limiter) {
        match question {
            Question::New => settled(Limiter::none(), Limiter::new(given.count())),
            Question::Set => (DONE, Limiter::read(given)),
            Question::Samples => settled(self, self.set_samples_per_channel(given.count())),
            Question::Reset => settled(self, self.reset()),
            Question::Process => settled(self, self.process(frame, given.count(), given.count())),
        }
    }
}
