// The library that C and Rust link: the chain and the limiter over states that the caller owns and lends. Every
// function but the first answers a reply's number, 0 where it is done; a refused step or gap stores nothing in the
// state or the frame. include/murzicanu.h declares them for C.

#![tactic(auto)]

ghost use Rattle.std.specs.Prelude.{◌≡◌};
ghost use Rattle.units.specs.Replies.{done};
ghost use Rattle.limiter.specs.Scale.{FullScale};
ghost use Rattle.kept.specs.Version.{version};
ghost use Rattle.kept.specs.Calls.{limiter_made, limiter_stepped, limiter_read, chain_made, chain_stepped, chain_gapped, chain_read};

use kept::calls::{
    KeptAnswer, Published, limit_frame, make_chain, make_limiter, mark_gap, read_chain,
    read_limiter, take_frame,
};
use kept::states::{KeptChain, KeptLimiter};
use units::figures::Figures;
use units::kinds::LinearS16;
use units::settings::Settings;

// The reply of a call that is done.
const DONE: u32 = 0;

// The version of the interface: of the functions below and of the structs that they are lent.
const VERSION: u32 = 3;

// The version of the interface. A caller compares it with the version that its own declarations have.
#[unsafe(no_mangle)]
pub extern "C" fn murzicanu_version() -> u32
    ensures { result ≡ version }
{
    VERSION
}

// Makes a new chain for channels of so many samples, whose protector remembers as many peaks as the capacity says, 1 to
// 16. Refused with 1 or 4, and then the chain is all 0, which every step refuses.
#[tactic(auto, unfolding(kept::specs::Calls::told_chain))]
#[unsafe(no_mangle)]
pub extern "C" fn murzicanu_chain_new(
    chain: &mut KeptChain,
    settings: &Settings,
    threshold: u32,
    samples: usize,
    capacity: u32,
) -> u32
    ensures value { result ≡ (chain_made settings.now threshold samples capacity).reply }
    ensures chain_after { chain.new ≡ (chain_made settings.now threshold samples capacity).chain }
{
    match make_chain(*settings, threshold, samples, capacity) {
        Ok(made) => {
            *chain = made;
            DONE
        }
        Err(refusal) => {
            *chain = KeptChain::none();
            refusal.number()
        }
    }
}

// Takes a frame with its figures: levels it where it stands, and tells what it was. Refused with 1, 4, 2 or 3, and
// then nothing is stored in the chain or the frame, and the answer is all 0.
#[tactic(auto, unfolding(kept::specs::Calls::told_step))]
#[unsafe(no_mangle)]
pub extern "C" fn murzicanu_chain_step(
    chain: &mut KeptChain,
    figures: &Figures,
    frame: &mut [f32],
    channels: usize,
    samples: usize,
    answer: &mut KeptAnswer,
) -> u32
    ensures value { result ≡ (chain_stepped chain.old figures.now frame.old channels samples).next.reply }
    ensures chain_after { chain.new ≡ (chain_stepped chain.old figures.now frame.old channels samples).next.chain }
    ensures answer_after { answer.new ≡ (chain_stepped chain.old figures.now frame.old channels samples).next.answer }
    ensures frame_after { frame.new ≡ (chain_stepped chain.old figures.now frame.old channels samples).frame }
    ensures scale { result ≡ done → FullScale frame.new }
{
    match take_frame(*chain, *figures, frame, channels, samples) {
        Ok(next) => {
            *answer = next.answer;
            *chain = next.chain;
            DONE
        }
        Err(refusal) => {
            *answer = KeptAnswer::none();
            refusal.number()
        }
    }
}

// Marks a gap: frames were lost, so that those before it and after it are not adjacent. It ends the run of speech, and
// has no sound. A chain that fails its test is refused with 4, and then nothing is stored in it.
#[tactic(auto, unfolding(kept::specs::Calls::told_chain))]
#[unsafe(no_mangle)]
pub extern "C" fn murzicanu_chain_gap(chain: &mut KeptChain) -> u32
    ensures value { result ≡ (chain_gapped chain.old).reply }
    ensures chain_after { chain.new ≡ (chain_gapped chain.old).chain }
{
    match mark_gap(*chain) {
        Ok(after) => {
            *chain = after;
            DONE
        }
        Err(refusal) => refusal.number(),
    }
}

// Reads what a chain publishes; a chain that fails its test is refused with 4, and then all is 0.
#[tactic(auto, unfolding(kept::specs::Calls::told_published))]
#[unsafe(no_mangle)]
pub extern "C" fn murzicanu_chain_read(chain: &KeptChain, published: &mut Published) -> u32
    ensures value { result ≡ (chain_read chain.now).reply }
    ensures published_after { published.new ≡ (chain_read chain.now).published }
{
    match read_chain(*chain) {
        Ok(read) => {
            *published = read;
            DONE
        }
        Err(refusal) => {
            *published = Published::none();
            refusal.number()
        }
    }
}

// Makes a new limiter for channels of so many samples; refused with 1, and then the limiter is all 0, which
// every step refuses.
#[tactic(auto, unfolding(kept::specs::Calls::told_limiter))]
#[unsafe(no_mangle)]
pub extern "C" fn murzicanu_limiter_new(limiter: &mut KeptLimiter, samples: usize) -> u32
    ensures value { result ≡ (limiter_made samples).reply }
    ensures limiter_after { limiter.new ≡ (limiter_made samples).limiter }
{
    match make_limiter(samples) {
        Ok(made) => {
            *limiter = made;
            DONE
        }
        Err(refusal) => {
            *limiter = KeptLimiter::none();
            refusal.number()
        }
    }
}

// Limits a frame where it stands. Refused with 1, 4 or 3, and then nothing is stored in the limiter or the frame.
#[tactic(auto, unfolding(kept::specs::Calls::told_limiter))]
#[unsafe(no_mangle)]
pub extern "C" fn murzicanu_limiter_step(
    limiter: &mut KeptLimiter,
    frame: &mut [f32],
    channels: usize,
    samples: usize,
) -> u32
    ensures value { result ≡ (limiter_stepped limiter.old frame.old channels samples).next.reply }
    ensures limiter_after { limiter.new ≡ (limiter_stepped limiter.old frame.old channels samples).next.limiter }
    ensures frame_after { frame.new ≡ (limiter_stepped limiter.old frame.old channels samples).frame }
    ensures scale { result ≡ done → FullScale frame.new }
{
    match limit_frame(*limiter, frame, channels, samples) {
        Ok(after) => {
            *limiter = after;
            DONE
        }
        Err(refusal) => refusal.number(),
    }
}

// Reads the limiter's envelope; a limiter that fails its test is refused with 4, and then the level is 0.
#[tactic(auto, unfolding(kept::specs::Calls::told_level))]
#[unsafe(no_mangle)]
pub extern "C" fn murzicanu_limiter_read(limiter: &KeptLimiter, level: &mut LinearS16) -> u32
    ensures value { result ≡ (limiter_read limiter.now).reply }
    ensures level_after { level.new ≡ (limiter_read limiter.now).level }
{
    match read_limiter(*limiter) {
        Ok(heard) => {
            *level = heard;
            DONE
        }
        Err(refusal) => {
            *level = LinearS16(0.0);
            refusal.number()
        }
    }
}
