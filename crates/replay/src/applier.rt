// The gain applier.
//
//   applier.new CLIP FACTOR
//   applier.set STATE             the applier with this state
//   applier.factor FACTOR         set_gain_factor
//   applier.apply FRAME           apply_gain
//
// Each answer shows the state, which is five figures (whether it clips, the gain factor that the last
// frame ended with, the one to end the next frame with, the samples of a channel and 1 over them);
// whether it passes; and get_gain_factor (a reply and the factor).

use crate::figures::{Given, Sheet};
use crate::part::{Asked, DONE, Part, loud, quiet, settled};
use gain_applier::Applier;

#[derive(Clone, Copy)]
pub enum Question {
    New,
    Set,
    Factor,
    Apply,
}

// Puts an applier's state.
pub(crate) fn put(applier: Applier, sheet: &mut Sheet) {
    sheet.flag(applier.clip);
    sheet.float(applier.last);
    sheet.float(applier.current);
    sheet.word(applier.samples.cast_unsigned());
    sheet.float(applier.inverse);
}

impl Part for Applier {
    type Question = Question;

    const STATE: usize = 5;

    fn named(name: &[u8]) -> Option<Asked<Question>> {
        match name {
            b".new" => quiet(Question::New, 2),
            b".set" => quiet(Question::Set, Applier::STATE),
            b".factor" => quiet(Question::Factor, 1),
            b".apply" => loud(Question::Apply, 2),
            _ => None,
        }
    }

    fn read(given: &mut Given<'_>) -> Applier {
        Applier {
            clip: given.flag(),
            last: given.float(),
            current: given.float(),
            samples: given.word().cast_signed(),
            inverse: given.float(),
        }
    }

    fn show(self, sheet: &mut Sheet) {
        put(self, sheet);
        sheet.flag(self.passes());
        let (reply, factor) = settled(0.0, self.get_gain_factor());
        sheet.word(reply);
        sheet.float(factor);
    }

    fn next(
        self,
        question: Question,
        given: &mut Given<'_>,
        frame: &mut [f32],
        _told: &mut Sheet,
    ) -> (u32, Applier) {
        match question {
            Question::New => { settled(Applier::none(), Applier::new(given.flag(), given.float())) }
            Question::Set => (DONE, Applier::read(given)),
            Question::Factor => settled(self, self.set_gain_factor(given.float())),
            Question::Apply => settled(self, self.apply_gain(frame, given.count(), given.count())),
        }
    }
}
