// A frame of a recording through the chain: bytes in, the levelled bytes out.

#![tactic(auto)]

ghost use Rattle.std.specs.Prelude.{◌≡◌, ◌≤◌, length};
ghost use Rattle.units.specs.Handed.{handed};
ghost use Rattle.recording_frame.specs.Levelling.{levelled};
ghost use Rattle.recording_frame.specs.Steps.{room_for};

use chain::Chain;
use units::figures::Figures;
use units::refusals::Refusal;
use wav_format::samples::{read_frame, write_frame};

// The most samples that a channel has, and a frame.
const CHANNEL_SAMPLES: usize = 480;

const MOST_SAMPLES: usize = 3840;

// How much of the room a frame of this shape takes: none where it has more channels or samples than any frame.
fn room_for(channels: usize, samples: usize) -> usize
    ensures upper_bound { result ≤ 3840 }
    ensures value { result ≡ room_for channels samples }
{
    if channels <= 8 && samples <= 480 {
        channels * samples
    } else {
        0
    }
}

// Levels the bytes of a frame where they stand, with room for its samples.
fn level_in(
    chain: Chain,
    figures: Figures,
    bytes: &mut [u8],
    frame: &mut [f32],
    channels: usize,
    samples: usize,
) -> Result<Chain, Refusal>
    requires { length frame.old ≡ room_for channels samples }
    ensures value { result ≡ handed (levelled chain figures bytes.old channels samples).next.reply (levelled chain figures bytes.old channels samples).next.chain }
    ensures bytes_after { bytes.new ≡ (levelled chain figures bytes.old channels samples).bytes }
{
    read_frame(bytes, frame, channels, samples)?;
    let next = chain.step(figures, frame, channels, samples)?;
    write_frame(frame, channels, samples, bytes)?;
    Ok(next.chain)
}

// Levels the bytes of a frame of n samples, with room for N.
fn level_within<const N: usize>(
    chain: Chain,
    figures: Figures,
    bytes: &mut [u8],
    n: usize,
    channels: usize,
    samples: usize,
) -> Result<Chain, Refusal>
    requires room_bound { N ≤ 3840 }
    requires n_bound { n ≤ N }
    requires n_value { n ≡ room_for channels samples }
    ensures value { result ≡ handed (levelled chain figures bytes.old channels samples).next.reply (levelled chain figures bytes.old channels samples).next.chain }
    ensures bytes_after { bytes.new ≡ (levelled chain figures bytes.old channels samples).bytes }
{
    let mut frame = [0.0; N];
    level_in(chain, figures, bytes, &mut frame[..n], channels, samples)
}

// Levels the bytes of a frame where they stand, with the figures that were metered of it, and answers the chain that goes
// on. Refused for their shape are bytes that are not two for each sample of a frame of this shape, and then what the chain
// refuses; the bytes stay as they were then. A frame of one channel takes less room, which is cleared sooner.
pub fn level_bytes(
    chain: Chain,
    figures: Figures,
    bytes: &mut [u8],
    channels: usize,
    samples: usize,
) -> Result<Chain, Refusal>
    ensures value { result ≡ handed (levelled chain figures bytes.old channels samples).next.reply (levelled chain figures bytes.old channels samples).next.chain }
    ensures bytes_after { bytes.new ≡ (levelled chain figures bytes.old channels samples).bytes }
{
    let n = room_for(channels, samples);
    if n <= CHANNEL_SAMPLES {
        level_within::<CHANNEL_SAMPLES>(chain, figures, bytes, n, channels, samples)
    } else {
        level_within::<MOST_SAMPLES>(chain, figures, bytes, n, channels, samples)
    }
}
