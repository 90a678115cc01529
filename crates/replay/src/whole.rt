// The chain. Each of its four parts can be handed in by its own name as well.
//
//   chain.new SETTINGS THRESHOLD SAMPLES CAPACITY
//                                         five settings, as speech.new has them
//   chain.set STATE                       the chain with this state: the limiter's, the speech level's, the
//                                         protector's and the controller's, in this order
//   chain.step FRAME                      between its two first figures and its samples stand the frame's
//                                         five: the probability, the rms level, the peak, the noise and
//                                         the envelope
//   chain.gap                             frames were lost: answered as a frame that is no speech, without samples
//   chain.state                           what each call says that only looks at the chain, and its state
//
// Each answer tells whether the chain passes, what the frame was (0 no speech, 1 waiting, 2 publishing), how
// many frames are missing, the level and the headroom that are published with it; and then what the chain
// publishes: level and headroom, whether the level is trusted, and the gain in dB, all 0 where the chain fails
// its test. chain.state shows before these what is shown of each part, in the order above: the parts' own figures,
// and not what the chain publishes, so that a state that fails its test can be compared as well. It tells besides
// the reply to `published`, that to `samples`, and the samples.

use crate::figures::{Given, Sheet};
use crate::part::{Asked, DONE, Part, loud, quiet, settled};
use crate::speech;
use crate::speech::SETTINGS;
use adaptive_digital_gain_controller::Controller;
use chain::{Answer, Chain, Next, Published};
use limiter::Limiter;
use saturation_protector::Protector;
use speech_level_estimator::Estimator;
use units::figures::Figures;
use units::kinds::{Db, Dbfs};

#[derive(Clone, Copy)]
pub enum Question {
    New,
    Set,
    Step,
    Gap,
    Look,
}

// The figures of a frame.
fn read_figures(given: &mut Given<'_>) -> Figures {
    Figures {
        probability: given.float(),
        rms: Dbfs(given.float()),
        peak: Dbfs(given.float()),
        noise: Dbfs(given.float()),
        envelope: Dbfs(given.float()),
    }
}

// Puts an answer's number, how many frames are missing, level and headroom, and 0 for what it has not.
fn put_answer(answer: Answer, sheet: &mut Sheet) {
    let (number, missing, level, headroom) = match answer {
        Answer::NonSpeech => (0, 0, 0.0, 0.0),
        Answer::Waiting(missing) => (1, missing, 0.0, 0.0),
        Answer::Publishing(level, headroom) => (2, 0, level.0, headroom.0),
    };
    sheet.word(number);
    sheet.word(missing);
    sheet.float(level);
    sheet.float(headroom);
}

// Tells what is shown of each part of a chain.
fn tell_parts(chain: Chain, told: &mut Sheet) {
    chain.limiter.show(told);
    chain.estimator.show(told);
    chain.protector.show(told);
    chain.controller.show(told);
}

// Tells the results, the last of them only where the chain is looked at.
fn tell(answer: Answer, chain: Chain, looked: bool, told: &mut Sheet) {
    told.flag(chain.passes());
    put_answer(answer, told);
    let none = Published {
        level: Dbfs(0.0),
        headroom: Db(0.0),
        gain: Db(0.0),
        confident: false,
    };
    let (reply, published) = settled(none, chain.published());
    told.float(published.level.0);
    told.float(published.headroom.0);
    told.flag(published.confident);
    told.float(published.gain.0);
    if looked {
        told.word(reply);
        let (reply, samples) = settled(0, chain.samples());
        told.word(reply);
        told.count(samples);
    }
}

impl Part for Chain {
    type Question = Question;

    const STATE: usize = Limiter::STATE + Estimator::STATE + Protector::STATE + Controller::STATE;

    fn named(name: &[u8]) -> Option<Asked<Question>> {
        match name {
            b".new" => quiet(Question::New, SETTINGS + 3),
            b".set" => quiet(Question::Set, Chain::STATE),
            b".step" => loud(Question::Step, 7),
            b".gap" => quiet(Question::Gap, 0),
            b".state" => quiet(Question::Look, 0),
            _ => None,
        }
    }

    fn read(given: &mut Given<'_>) -> Chain {
        let limiter = Limiter::read(given);
        Chain {
            estimator: Estimator::read(given),
            protector: Protector::read(given),
            controller: Controller::read(given),
            limiter,
        }
    }

    // Its parts are shown only where the chain is looked at, and are among the results there.
    fn show(self, _sheet: &mut Sheet) {}

    fn next(
        self,
        question: Question,
        given: &mut Given<'_>,
        frame: &mut [f32],
        told: &mut Sheet,
    ) -> (u32, Chain) {
        let mut answer = Answer::NonSpeech;
        let (reply, chain) = match question {
            Question::New => {
                let settings = speech::read_settings(given);
                let made = Chain::new(settings, given.word(), given.count(), given.word());
                settled(Chain::none(), made)
            }
            Question::Set => (DONE, Chain::read(given)),
            Question::Step => {
                let channels = given.count();
                let samples = given.count();
                let figures = read_figures(given);
                let still = Next {
                    answer,
                    chain: self,
                };
                let made = self.step(figures, frame, channels, samples);
                let (reply, next) = settled(still, made);
                answer = next.answer;
                (reply, next.chain)
            }
            Question::Gap => settled(self, self.gap()),
            Question::Look => {
                tell_parts(self, told);
                (DONE, self)
            }
        };
        let looked = matches!(question, Question::Look);
        tell(answer, chain, looked, told);
        (reply, chain)
    }
}
