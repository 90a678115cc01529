// The gain controller.
//
//   controller.new SETTINGS THRESHOLD     five settings, as speech.new has them
//   controller.set STATE                  the controller with this state
//   controller.process FRAME              between its two first figures and its samples stand what is
//                                         known of the frame: the probability, the level of the speech and
//                                         whether it is trusted, the noise, the headroom and the envelope
//   controller.gap
//
// Each answer shows the state, which is fourteen figures (the applier's five, the five settings, the
// threshold, the change in a frame, how many speech frames are still to come, and the gain in dB); and
// whether it passes.

use crate::figures::{Given, Sheet};
use crate::part::{Asked, DONE, Part, loud, quiet, settled};
use crate::speech::SETTINGS;
use crate::{applier, speech};
use adaptive_digital_gain_controller::{Controller, Info};
use gain_applier::Applier;
use units::kinds::{Db, Dbfs};

#[derive(Clone, Copy)]
pub enum Question {
    New,
    Set,
    Process,
    Gap,
}

// What is known of a frame.
fn read_info(given: &mut Given<'_>) -> Info {
    Info {
        probability: given.float(),
        level: Dbfs(given.float()),
        reliable: given.flag(),
        noise: Dbfs(given.float()),
        headroom: Db(given.float()),
        envelope: Dbfs(given.float()),
    }
}

impl Part for Controller {
    type Question = Question;

    const STATE: usize = Applier::STATE + SETTINGS + 4;

    fn named(name: &[u8]) -> Option<Asked<Question>> {
        match name {
            b".new" => quiet(Question::New, SETTINGS + 1),
            b".set" => quiet(Question::Set, Controller::STATE),
            b".process" => loud(Question::Process, 8),
            b".gap" => quiet(Question::Gap, 0),
            _ => None,
        }
    }

    fn read(given: &mut Given<'_>) -> Controller {
        Controller {
            applier: Applier::read(given),
            settings: speech::read_settings(given),
            threshold: given.word(),
            change: given.float(),
            waiting: given.word(),
            gain: given.float(),
        }
    }

    fn show(self, sheet: &mut Sheet) {
        applier::put(self.applier, sheet);
        speech::put_settings(self.settings, sheet);
        sheet.word(self.threshold);
        sheet.float(self.change);
        sheet.word(self.waiting);
        sheet.float(self.gain);
        sheet.flag(self.passes());
    }

    fn next(
        self,
        question: Question,
        given: &mut Given<'_>,
        frame: &mut [f32],
        _told: &mut Sheet,
    ) -> (u32, Controller) {
        match question {
            Question::New => {
                let settings = speech::read_settings(given);
                settled(Controller::none(), Controller::new(settings, given.word()))
            }
            Question::Set => (DONE, Controller::read(given)),
            Question::Process => {
                let channels = given.count();
                let samples = given.count();
                let known = read_info(given);
                settled(self, self.process(known, frame, channels, samples))
            }
            Question::Gap => settled(self, self.gap()),
        }
    }
}
