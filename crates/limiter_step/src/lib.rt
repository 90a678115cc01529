// The limiter's step over a limiter that is lent: for a caller that keeps the state where it stands.

#![tactic(auto)]

ghost use Rattle.std.specs.Prelude.{◌≡◌, OnOk};
ghost use Rattle.units.specs.Handed.{handed};
ghost use Rattle.limiter.specs.Scale.{FullScale};
ghost use Rattle.limiter.specs.Limiter.{processed};

use limiter::Limiter;
use units::refusals::Refusal;

// Limits a frame by a limiter that is lent: the state is taken out, the limiter's step is called, and
// the next state is stored. Refused as `process` is, and then nothing is stored in state or frame.
#[tactic(auto, using(crate::proofs::Stays::stays, crate::proofs::Stays::stored))]
pub fn process_lent(
    state: &mut Limiter,
    frame: &mut [f32],
    channels: usize,
    samples: usize,
) -> Result<(), Refusal>
    ensures value { result ≡ handed (processed state.old frame.old channels samples).next.reply tt }
    ensures state_after { state.new ≡ (processed state.old frame.old channels samples).next.limiter }
    ensures frame_after { frame.new ≡ (processed state.old frame.old channels samples).frame }
    ensures scale { OnOk result (FullScale frame.new) }
{
    *state = state.process(frame, channels, samples)?;
    Ok(())
}
