// What the program says when it ends, on a descriptor of its own: 0 where all went well, otherwise the reply with which the
// strip was refused; or nothing.

ghost use Rattle.std.specs.Prelude.{◌≡◌};
ghost use Rattle.recording_run.specs.Answer.{all_well, said, refusal_answer, run_answer, meter_answer};

use crate::levelling::{Run, Told};
use crate::metering::Meter;

// Whether all went well, to the end: all frames did, nothing is told at the end, no read failed there, and all is written.
fn all_well(well: bool, told: Option<Told>, failed: bool, written: bool) -> bool
    ensures { result ≡ all_well well told failed written }
{
    well & told.is_none() & !failed & written
}

// Of a strip that is refused with this reply, before the first frame: the reply. 0 is no refusal's, and is not said. The
// reply is a number, and no Refusal: `refusal_answer` speaks of every number.
pub fn of_refusal(reply: u32) -> Option<u32>
    ensures { result ≡ said (refusal_answer reply) }
{
    (0 < reply).then_some(reply)
}

// Of a run over the frames, with what is told at its end, whether a read failed there, and whether all is written, to the
// close of the output.
pub fn of_run(run: Run, told: Option<Told>, failed: bool, written: bool) -> Option<u32>
    ensures { result ≡ said (run_answer run told failed written) }
{
    if 0 < run.refused {
        of_refusal(run.refused)
    } else {
        all_well(run.well, told, failed, written).then_some(0)
    }
}

// Of a metering, in the same way: there is no strip that is refused.
pub fn of_metering(meter: Meter, told: Option<Told>, failed: bool, written: bool) -> Option<u32>
    ensures { result ≡ said (meter_answer meter told failed written) }
{
    all_well(meter.well, told, failed, written).then_some(0)
}
