// The strip behind the last frame of a recording: gaps are taken, and anything else but its end is told.

ghost use Rattle.std.specs.Prelude.{◌≡◌};
ghost use Rattle.recording_run.specs.Rest.{no_gap, rested};

use crate::levelling::{Run, after_gap};
use strip_reader::Got;

// The run after what came out of the strip, whether the strip goes on, whether more is to be drawn, since a gap came, and
// whether a read failed.
#[derive(Clone, Copy)]
pub struct Rest {
    pub run: Run,
    pub goes: bool,
    pub again: bool,
    pub failed: bool,
}

// What came out was no gap.
fn no_gap(run: Run, goes: bool, failed: bool) -> Rest
    ensures { result ≡ no_gap run goes failed }
{
    Rest {
        run,
        goes,
        again: false,
        failed,
    }
}

// Takes what came out of the strip behind the last frame. A gap is taken, and more is to be drawn. With a record the strip
// goes on, and so it does with what is refused as one. Nothing comes out where a read failed, which was told.
pub fn take_rest(run: Run, got: Got) -> Rest
    ensures { result ≡ rested got run }
{
    match got {
        Got::More => no_gap(run, false, true),
        Got::Head(_) => no_gap(run, true, false),
        Got::Record(_) => no_gap(run, true, false),
        Got::Gap => {
            let before = run.chain;
            let chain = before.gap().unwrap_or(before);
            Rest {
                run: after_gap(run, chain),
                goes: false,
                again: true,
                failed: false,
            }
        }
        Got::End => no_gap(run, false, false),
        Got::Refused(_) => no_gap(run, true, false),
    }
}
