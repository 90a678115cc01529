// The curve from level to gain.
//
//   curve.new
//   curve.set STATE           the curve with this state
//   curve.level X             look_up_gain_to_apply
//   curve.stats               get_stats: twelve results, the statistics that the call gives
//
// Each answer shows the state, which is twelve figures: the four counts (identity, knee, limiter,
// saturation; two figures each), whether there was a level, the region (0 to 3 in that order) and the
// duration (two figures); whether it passes; and the gain, which is 0 where none is asked for.

use crate::figures::{Given, Sheet};
use crate::part::{Asked, DONE, Part, quiet, settled};
use interpolated_gain_curve::{Curve, Looked};
use units::kinds::LinearS16;

#[derive(Clone, Copy)]
pub enum Question {
    New,
    Set,
    Level,
    Stats,
}

// Puts a curve's state.
pub(crate) fn put(curve: Curve, sheet: &mut Sheet) {
    sheet.long(curve.identity);
    sheet.long(curve.knee);
    sheet.long(curve.limiter);
    sheet.long(curve.saturation);
    sheet.flag(curve.available);
    sheet.word(curve.region);
    sheet.long(curve.duration.cast_unsigned());
}

impl Part for Curve {
    type Question = Question;

    const STATE: usize = 12;

    fn named(name: &[u8]) -> Option<Asked<Question>> {
        match name {
            b".new" => quiet(Question::New, 0),
            b".set" => quiet(Question::Set, Curve::STATE),
            b".level" => quiet(Question::Level, 1),
            b".stats" => quiet(Question::Stats, 0),
            _ => None,
        }
    }

    fn read(given: &mut Given<'_>) -> Curve {
        Curve {
            identity: given.long(),
            knee: given.long(),
            limiter: given.long(),
            saturation: given.long(),
            available: given.flag(),
            region: given.word(),
            duration: given.long().cast_signed(),
        }
    }

    fn show(self, sheet: &mut Sheet) {
        put(self, sheet);
        sheet.flag(self.passes());
    }

    fn next(
        self,
        question: Question,
        given: &mut Given<'_>,
        _frame: &mut [f32],
        told: &mut Sheet,
    ) -> (u32, Curve) {
        match question {
            Question::New => {
                told.float(0.0);
                (DONE, Curve::new())
            }
            Question::Set => {
                told.float(0.0);
                (DONE, Curve::read(given))
            }
            Question::Level => {
                let still = Looked {
                    curve: self,
                    gain: 0.0,
                };
                let level = LinearS16(given.float());
                let (reply, looked) = settled(still, self.look_up_gain_to_apply(level));
                told.float(looked.gain);
                (reply, looked.curve)
            }
            Question::Stats => {
                let (reply, statistics) = settled(Curve::new(), self.get_stats());
                told.float(0.0);
                put(statistics, told);
                (reply, self)
            }
        }
    }
}
