// What is the same for every part: how it is asked, and how the answer is put together.

use crate::figures::{Given, Sheet};
use crate::lines::Answers;
use units::refusals::Refusal;

// The reply to what is not refused.
pub const DONE: u32 = 0;

// The most samples that a frame can have.
const MOST_SAMPLES: usize = 3840;

// The reply's number, and what there is then: what a call made, or what there was before, where the call is refused.
pub(crate) fn settled<T: Copy>(before: T, made: Result<T, Refusal>) -> (u32, T) {
    match made {
        Ok(after) => (DONE, after),
        Err(refusal) => (refusal.number(), before),
    }
}

// A question that has a name: how many figures it takes, and how many samples may follow these.
#[derive(Clone, Copy)]
pub struct Asked<Q> {
    question: Q,
    figures: usize,
    samples: usize,
}

// One that takes so many figures.
pub(crate) fn quiet<Q: Copy>(question: Q, figures: usize) -> Option<Asked<Q>> {
    Some(Asked {
        question,
        figures,
        samples: 0,
    })
}

// One that takes so many figures and then a frame.
pub(crate) fn loud<Q: Copy>(question: Q, figures: usize) -> Option<Asked<Q>> {
    Some(Asked {
        question,
        figures,
        samples: MOST_SAMPLES,
    })
}

// A part, by its state.
pub(crate) trait Part: Copy {
    // What can be asked of it.
    type Question: Copy;

    // How many figures its state has.
    const STATE: usize;

    // The question of this name, which begins with its dot.
    fn named(name: &[u8]) -> Option<Asked<Self::Question>>;

    // The state that a question hands in.
    fn read(given: &mut Given<'_>) -> Self;

    // Puts what an answer shows of it: its state, and what each call says that only looks at it.
    fn show(self, sheet: &mut Sheet);

    // The reply's number, and the part after it, which a refusal leaves as it was. Other results are told.
    fn next(
        self,
        question: Self::Question,
        given: &mut Given<'_>,
        frame: &mut [f32],
        told: &mut Sheet,
    ) -> (u32, Self);
}

// The state of a part whose every figure is 0: before any question, and where a new one is refused.
pub(crate) fn nothing<P: Part>() -> P {
    P::read(&mut Given::none())
}

// Asks a part, which goes on as it is then, and answers. None where it is no question.
pub(crate) fn ask<P: Part>(
    part: &mut P,
    name: &[u8],
    given: Given<'_>,
    answers: &mut Answers,
) -> Option<()> {
    let asked = P::named(name)?;
    let (mut figures, mut sound) = given.split(asked.figures)?;
    if asked.samples < sound.len() {
        return None;
    }
    let mut room = [0.0; MOST_SAMPLES];
    let frame = room.get_mut(..sound.len())?;
    sound.floats(frame);
    let mut told = Sheet::new();
    let (reply, after) = part.next(asked.question, &mut figures, frame, &mut told);
    *part = after;
    let mut sheet = Sheet::new();
    sheet.word(reply);
    after.show(&mut sheet);
    sheet.put(&told);
    answers.answer(&sheet, frame);
    Some(())
}
