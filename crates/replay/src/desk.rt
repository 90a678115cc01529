// The questions. A line is a name and then figures, each with one space before it, and a figure is
// eight lower-case hexadecimal digits: the bits of an f32, or a number. The answer is a line of
// figures with one space between them: the reply's number, the part's whole state as it is then, what
// each call says that only looks at the state, the other results in the order of document 01, and,
// where a frame is asked about, each of its samples as it is then. A bool is 0 or 1, and a number of 64
// bits is two figures, the higher half first. Whatever is no question is answered ? alone.
//
//   ratio 41a00000    the ratio of a gain in dB    00000000 41200000
//
// A name is a part and, after a dot, what is asked of it. Each part's file says which questions it knows, and how
// many figures each takes. A part has one state here, which goes on from line to line; `new` starts it afresh, and
// before that every figure of it is 0.
//
// A frame is asked about by NAME CHANNELS SAMPLES and then any number of sample figures up to 3840, so
// that frames of a wrong length can be asked about too. The controller has six more figures before the
// samples, and the chain five.

use crate::figures::Given;
use crate::lines;
use crate::lines::Answers;
use crate::part::{ask, nothing};
use crate::ratio::Ratio;
use crate::ring::Rings;
use chain::Chain;
use fixed_digital_level_estimator::Estimator;
use gain_applier::Applier;
use interpolated_gain_curve::Curve;

// The parts. The chain's four can be asked about by their own names too.
#[derive(Clone, Copy)]
pub struct Desk {
    rings: Rings,
    curve: Curve,
    estimator: Estimator,
    applier: Applier,
    chain: Chain,
}

impl Desk {
    // The parts before any question.
    pub(crate) fn new() -> Desk {
        Desk {
            rings: nothing(),
            curve: nothing(),
            estimator: nothing(),
            applier: nothing(),
            chain: nothing(),
        }
    }

    // Asks the part that a line names. None where the line is no question.
    fn ask(&mut self, line: &[u8], answers: &mut Answers) -> Option<()> {
        let (name, figures) = lines::split(line, b' ');
        let (part, question) = lines::split(name, b'.');
        let given = Given::of(figures)?;
        match part {
            b"ratio" => ask(&mut Ratio, question, given, answers),
            b"ring" => ask(&mut self.rings, question, given, answers),
            b"curve" => ask(&mut self.curve, question, given, answers),
            b"estimator" => ask(&mut self.estimator, question, given, answers),
            b"applier" => ask(&mut self.applier, question, given, answers),
            b"limiter" => ask(&mut self.chain.limiter, question, given, answers),
            b"speech" => ask(&mut self.chain.estimator, question, given, answers),
            b"protector" => ask(&mut self.chain.protector, question, given, answers),
            b"controller" => ask(&mut self.chain.controller, question, given, answers),
            b"chain" => ask(&mut self.chain, question, given, answers),
            _ => None,
        }
    }

    // Answers a line.
    pub(crate) fn answer(&mut self, line: &[u8], answers: &mut Answers) {
        if self.ask(line, answers).is_none() {
            answers.no_question();
        }
    }
}
