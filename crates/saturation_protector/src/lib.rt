// The headroom that the recent peaks of the speech ask for. The Rust's saturation_protector.

#![tactic(auto)]

ghost use Rattle.std.specs.Prelude.{◌≡◌, cond, true};
ghost use Rattle.units.specs.Figures.{level as is_level};
ghost use Rattle.units.specs.Replies.{refusal};
ghost use Rattle.units.specs.Handed.{handed};
ghost use Rattle.saturation_protector_buffer.specs.Ring.{is_capacity, passes as passes_ring, push, items};
ghost use Rattle.saturation_protector.specs.Peaks.{all_levels, none, starting, passes, oldest_or, nearer, restarted, advanced};
ghost use Rattle.saturation_protector.specs.Protector.{passes as passes_protector, fresh, nothing, again, analyzed, interrupted};
ghost use Rattle.saturation_protector.specs.Calls.{made, stepped, gap, reset, told};

use saturation_protector_buffer::{Ring, is_capacity};
use units::figures::{is_headroom, is_level, is_probability};
use units::kinds::{Db, Dbfs};
use units::refusals::{Refusal, check};

// How many milliseconds a frame lasts.
const FRAME: u32 = 10;

// A peak is pushed once more than so many milliseconds have passed since the last push.
const LONGEST: u32 = 400;

// The lowest level in dBFS, from which the largest peak starts.
const LOWEST: f32 = -90.309;

// How much of the headroom stays in each frame, where the peak asks for more, and where it does not.
const ATTACK: f32 = 0.9988494;

const DECAY: f32 = 0.99976975;

// The ends of a headroom that was worked out.
const LEAST: f32 = 12.0;

const MOST: f32 = 25.0;

// The headroom, the recent peaks, the largest peak since the last push, and how many milliseconds ago
// that was. The Rust's SaturationProtectorState.
#[repr(C)]
#[derive(Clone, Copy)]
pub struct Peaks {
    pub headroom: f32,
    pub ring: Ring,
    pub largest: f32,
    pub elapsed: u32,
}

// The headroom to start with, how many adjacent speech frames are asked for, how many there are, the
// headroom that is published, and the two states, whose rings have one capacity.
#[repr(C)]
#[derive(Clone, Copy)]
pub struct Protector {
    pub initial: f32,
    pub threshold: u32,
    pub count: u32,
    pub headroom: f32,
    pub preliminary: Peaks,
    pub reliable: Peaks,
}

// The ring with a peak more where one is due, and as it is otherwise.
fn pushed_when(due: bool, ring: Ring, peak: f32) -> Ring
    requires { (passes_ring ring ≡ true) × (is_level peak ≡ true) }
    ensures { result ≡ cond due (push ring peak) ring }
{
    if due {
        ring.push_back(Dbfs(peak)).unwrap()
    } else {
        ring
    }
}

// Whether each of these slots lies from -150 to 50.
fn are_levels(slots: &[f32]) -> bool
    ensures { result ≡ all_levels slots.now }
{
    slots.iter().all(|x| is_level(Dbfs(*x)))
}

// The oldest peak of a ring, and the other value where it has none.
fn oldest_or(ring: Ring, other: f32) -> f32
    requires { passes_ring ring ≡ true }
    ensures { result ≡ oldest_or (items ring) other }
{
    match ring.front().unwrap() {
        None => other,
        Some(peak) => peak.0,
    }
}

// The headroom after a frame: a little nearer to the difference that the frame asks for, quicker where that
// is larger, and from 12 to 25.
#[tactic(auto, unfolding(crate::specs::Peaks::nearer))]
fn nearer(headroom: f32, difference: f32) -> f32
    ensures { result ≡ nearer headroom difference }
{
    let stays = floats::pick(headroom < difference, ATTACK, DECAY);
    floats::clamp(headroom * stays + difference * (1.0 - stays), LEAST, MOST)
}

impl Peaks {
    // No peak yet, at a headroom, with a ring of this capacity.
    fn starting(headroom: f32, capacity: u32) -> Peaks
        requires { is_capacity capacity ≡ true }
        ensures { result ≡ starting headroom capacity }
    {
        Peaks {
            headroom,
            ring: Ring::new(capacity).unwrap(),
            largest: LOWEST,
            elapsed: 0,
        }
    }

    // All 0, which passes no test.
    #[tactic(auto, unfolding(crate::specs::Peaks::none))]
    fn none() -> Peaks
        ensures { result ≡ none }
    {
        let ring = Ring::none();
        Peaks {
            headroom: 0.0,
            ring,
            largest: 0.0,
            elapsed: 0,
        }
    }

    // Whether a handed-in state passes: the headroom in its range, a ring that passes, with the slots below its
    // capacity and the largest peak from -150 to 50, and a time from 0 to 400 in tens.
    fn passes(self) -> bool
        ensures { result ≡ passes self }
    {
        let ring = self.ring;
        // What is a level is finite, so the slots are looked at once.
        if ring.fits() {
            let slots = ring.slots();
            is_headroom(Db(self.headroom))
                & are_levels(slots)
                & is_level(Dbfs(self.largest))
                & ((self.elapsed <= LONGEST) & (self.elapsed % FRAME == 0))
        } else {
            false
        }
    }

    // The state without its peaks, at a headroom; the ring's storage stays.
    fn restarted(self, headroom: f32) -> Peaks
        requires { passes_ring self.ring ≡ true }
        ensures { result ≡ restarted headroom self }
    {
        let ring = self.ring.reset().unwrap();
        Peaks {
            headroom,
            ring,
            largest: LOWEST,
            elapsed: 0,
        }
    }

    // The state with one frame more, of this peak and this level of the speech.
    fn advanced(self, peak: f32, level: f32) -> Peaks
        requires { (passes self ≡ true) × (is_level peak ≡ true) }
        ensures { result ≡ advanced peak level self }
    {
        let larger = floats::larger(self.largest, peak);
        let later = self.elapsed + FRAME;
        let due = LONGEST < later;
        let ring = pushed_when(due, self.ring, larger);
        let largest = floats::pick(due, LOWEST, larger);
        let elapsed = floats::pick(due, 0, later);
        let difference = oldest_or(ring, largest) - level;
        let headroom = nearer(self.headroom, difference);
        Peaks {
            headroom,
            ring,
            largest,
            elapsed,
        }
    }
}

// The private steps ask for a state that passes, in a clause. No type holds that fact: the fields of a state are the C interface's,
// and whoever has one may write them.
impl Protector {
    // A new protector that starts at a headroom, and whose rings hold so many peaks. A threshold that is not from 1
    // to the largest and a capacity that is not from 1 to 16 are refused with 4, and then a headroom that is not
    // above 0 and to 100 with 2.
    pub fn new(initial: Db, threshold: u32, capacity: u32) -> Result<Protector, Refusal>
        ensures { result ≡ handed (made initial.0 threshold capacity).reply (made initial.0 threshold capacity).protector }
    {
        let setting = units::settings::is_threshold(threshold) & is_capacity(capacity);
        let figure = is_headroom(initial);
        check(true, setting, figure, true)?;
        Ok(Protector::fresh(initial.0, threshold, capacity))
    }

    // All 0, which passes no test: what stands where a protector was refused.
    #[tactic(auto, unfolding(crate::specs::Protector::nothing))]
    pub fn none() -> Protector
        ensures { result ≡ nothing }
    {
        let none = Peaks::none();
        Protector {
            initial: 0.0,
            threshold: 0,
            count: 0,
            headroom: 0.0,
            preliminary: none,
            reliable: none,
        }
    }

    // A protector at the start: no peak yet, and the headroom to start with is published.
    #[tactic(auto, unfolding(crate::specs::Protector::fresh))]
    fn fresh(initial: f32, threshold: u32, capacity: u32) -> Protector
        requires { is_capacity capacity ≡ true }
        ensures { result ≡ fresh initial threshold capacity }
    {
        let start = Peaks::starting(initial, capacity);
        Protector {
            initial,
            threshold,
            count: 0,
            headroom: initial,
            preliminary: start,
            reliable: start,
        }
    }

    // Whether a handed-in state passes: both headrooms and the threshold in their ranges, a run no longer
    // than the threshold, and two states that pass, with rings of one capacity.
    #[tactic(auto, unfolding(crate::specs::Protector::passes))]
    pub fn passes(self) -> bool
        ensures { result ≡ passes_protector self }
    {
        let preliminary = self.preliminary;
        let reliable = self.reliable;
        is_headroom(Db(self.initial))
            & units::settings::is_threshold(self.threshold)
            & (self.count <= self.threshold)
            & is_headroom(Db(self.headroom))
            & preliminary.passes()
            & reliable.passes()
            & (preliminary.ring.capacity == reliable.ring.capacity)
    }

    // The protector itself. One that fails its test is refused with 4.
    fn checked(self) -> Result<Protector, Refusal>
        ensures { result ≡ handed (refusal true (passes_protector self) true true) self }
    {
        check(true, self.passes(), true, true)?;
        Ok(self)
    }

    // Takes a frame's probability and peak, and the level of the speech. A speech frame advances the
    // preliminary state, and from the threshold on its headroom is published; any other frame keeps the
    // run or throws it away. Refused with 4 or 2.
    pub fn analyze(self, probability: f32, peak: Dbfs, level: Dbfs) -> Result<Protector, Refusal>
        ensures { result ≡ handed (stepped self probability peak.0 level.0).reply (stepped self probability peak.0 level.0).protector }
    {
        let figures = is_probability(probability) & is_level(peak) & is_level(level);
        check(true, self.passes(), figures, true)?;
        Ok(self.analyzed(probability, peak.0, level.0))
    }

    // The protector after a frame.
    fn analyzed(self, probability: f32, peak: f32, level: f32) -> Protector
        requires { (passes_protector self ≡ true) × (is_level peak ≡ true) }
        ensures { result ≡ analyzed self probability peak level }
    {
        let speech = runs::is_speech(probability);
        if speech {
            let turn = runs::step(true, self.threshold, self.count);
            let preliminary = self.preliminary.advanced(peak, level);
            let headroom = floats::pick(turn.publish, preliminary.headroom, self.headroom);
            Protector {
                count: turn.count,
                headroom,
                preliminary,
                ..self
            }
        } else {
            // It ends the run as a gap does.
            self.interrupted()
        }
    }

    // Marks a gap: frames were lost, so that those before it and after it are not adjacent. It ends the run as
    // a frame that is not speech does, and publishes nothing. A state that fails its test is refused with 4.
    pub fn gap(self) -> Result<Protector, Refusal>
        ensures { result ≡ handed (gap self).reply (gap self).protector }
    {
        Ok(self.checked()?.interrupted())
    }

    // The protector after a gap.
    #[tactic(auto, unfolding(crate::specs::Protector::interrupted, runs::specs::Runs::closed, runs::specs::Runs::turned))]
    fn interrupted(self) -> Protector
        ensures { result ≡ interrupted self }
    {
        let before = self.preliminary;
        let trusted = self.reliable;
        let ended = runs::step(false, self.threshold, self.count);
        let preliminary = floats::pick(ended.throw, trusted, before);
        let reliable = floats::pick(ended.keep, before, trusted);
        Protector {
            count: ended.count,
            preliminary,
            reliable,
            ..self
        }
    }

    // The protector at its start again, but for the storage of its rings. A state that fails its test is
    // refused with 4.
    pub fn reset(self) -> Result<Protector, Refusal>
        ensures { result ≡ handed (reset self).reply (reset self).protector }
    {
        Ok(self.checked()?.again())
    }

    // The protector after a reset.
    #[tactic(auto, unfolding(crate::specs::Protector::again))]
    fn again(self) -> Protector
        requires { passes_protector self ≡ true }
        ensures { result ≡ again self }
    {
        let initial = self.initial;
        Protector {
            count: 0,
            headroom: initial,
            preliminary: self.preliminary.restarted(initial),
            reliable: self.reliable.restarted(initial),
            ..self
        }
    }

    // The published headroom. A state that fails its test is refused with 4.
    pub fn headroom_db(self) -> Result<Db, Refusal>
        ensures { result ≡ handed (told self).reply (told self).headroom }
    {
        Ok(Db(self.checked()?.headroom))
    }
}
