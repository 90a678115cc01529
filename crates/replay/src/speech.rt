// The level of the speech.
//
//   speech.new SETTINGS THRESHOLD     five settings: headroom, largest gain, initial gain, change, noise
//   speech.set STATE                  the estimator with this state
//   speech.update RMS PROBABILITY
//   speech.reset
//   speech.gap
//
// Each answer shows the state, which is sixteen figures (the five settings, the threshold, the level to
// start with, the preliminary average and the reliable one, each as time left, sum and weight, the
// published level, whether it is trusted, and the count of adjacent speech frames); whether it passes;
// level_dbfs (a reply and the level); and is_confident (a reply and a bool).

use crate::figures::{Given, Sheet};
use crate::part::{Asked, DONE, Part, quiet, settled};
use speech_level_estimator::{Average, Estimator};
use units::kinds::{Db, Dbfs};
use units::settings::Settings;

#[derive(Clone, Copy)]
pub enum Question {
    New,
    Set,
    Update,
    Reset,
    Gap,
}

// How many figures the settings have.
pub const SETTINGS: usize = 5;

// The settings that are given.
pub(crate) fn read_settings(given: &mut Given<'_>) -> Settings {
    Settings {
        headroom: Db(given.float()),
        largest: Db(given.float()),
        initial: Db(given.float()),
        change: given.float(),
        noise: Dbfs(given.float()),
    }
}

// Puts settings.
pub(crate) fn put_settings(settings: Settings, sheet: &mut Sheet) {
    sheet.float(settings.headroom.0);
    sheet.float(settings.largest.0);
    sheet.float(settings.initial.0);
    sheet.float(settings.change);
    sheet.float(settings.noise.0);
}

// The average that is given.
fn read_average(given: &mut Given<'_>) -> Average {
    Average {
        left: given.word(),
        sum: given.float(),
        weight: given.float(),
    }
}

// Puts an average.
fn put_average(average: Average, sheet: &mut Sheet) {
    sheet.word(average.left);
    sheet.float(average.sum);
    sheet.float(average.weight);
}

impl Part for Estimator {
    type Question = Question;

    const STATE: usize = SETTINGS + 11;

    fn named(name: &[u8]) -> Option<Asked<Question>> {
        match name {
            b".new" => quiet(Question::New, SETTINGS + 1),
            b".set" => quiet(Question::Set, Estimator::STATE),
            b".update" => quiet(Question::Update, 2),
            b".reset" => quiet(Question::Reset, 0),
            b".gap" => quiet(Question::Gap, 0),
            _ => None,
        }
    }

    fn read(given: &mut Given<'_>) -> Estimator {
        Estimator {
            settings: read_settings(given),
            threshold: given.word(),
            initial: given.float(),
            preliminary: read_average(given),
            reliable: read_average(given),
            level: given.float(),
            confident: given.flag(),
            count: given.word(),
        }
    }

    fn show(self, sheet: &mut Sheet) {
        put_settings(self.settings, sheet);
        sheet.word(self.threshold);
        sheet.float(self.initial);
        put_average(self.preliminary, sheet);
        put_average(self.reliable, sheet);
        sheet.float(self.level);
        sheet.flag(self.confident);
        sheet.word(self.count);
        sheet.flag(self.passes());
        let (reply, level) = settled(Dbfs(0.0), self.level_dbfs());
        sheet.word(reply);
        sheet.float(level.0);
        let (reply, confident) = settled(false, self.is_confident());
        sheet.word(reply);
        sheet.flag(confident);
    }

    fn next(
        self,
        question: Question,
        given: &mut Given<'_>,
        _frame: &mut [f32],
        _told: &mut Sheet,
    ) -> (u32, Estimator) {
        match question {
            Question::New => {
                let settings = read_settings(given);
                settled(Estimator::none(), Estimator::new(settings, given.word()))
            }
            Question::Set => (DONE, Estimator::read(given)),
            Question::Update => settled(self, self.update(Dbfs(given.float()), given.float())),
            Question::Reset => settled(self, self.reset()),
            Question::Gap => settled(self, self.gap()),
        }
    }
}
