// A ring of recent peaks: a push into a full ring replaces the oldest. The Rust's
// saturation_protector_buffer, with its size a field of the ring.

#![tactic(auto)]

ghost use Rattle.std.specs.Prelude.{◌≡◌, ◌<◌, ◌≤◌, true, get_or};
ghost use Rattle.std.specs.Float.{nan};
ghost use Rattle.units.specs.Replies.{refusal};
ghost use Rattle.units.specs.Handed.{handed};
ghost use Rattle.saturation_protector_buffer.specs.Rings.{slots, all_finite, start, same_items};
ghost use Rattle.saturation_protector_buffer.specs.Ring.{largest, usual, is_capacity, empty, fits, passes, push, items, said};
ghost use Rattle.saturation_protector_buffer.specs.Calls.{made, pushed, told, oldest, fronted, sized, held, forgotten, compared};
ghost use Rattle.saturation_protector_buffer.specs.Steps.{Within};

use units::kinds::Dbfs;
use units::refusals::{Refusal, check};

// How many slots the storage of a ring has: one for each peak of the largest ring.
pub const STORAGE: usize = 16;

// The capacity of the largest ring.
const LARGEST: u32 = 16;

// The capacity of a ring where none is asked for.
const USUAL: u32 = 4;

// The storage, how many peaks the ring can hold, the place where the next peak goes (the Rust's `next`) and how
// many peaks there are. All three are numbers of 32 bits, so that a struct that holds a ring has no hole beside it
// in C's layout.
#[repr(C)]
#[derive(Clone, Copy)]
pub struct Ring {
    pub stored: [f32; STORAGE],
    pub capacity: u32,
    pub place: u32,
    pub size: u32,
}

// The capacity of a ring where none is asked for.
pub fn usual_capacity() -> u32
    ensures { result ≡ usual }
{
    USUAL
}

// Whether a ring can have this capacity: 1 to 16.
#[tactic(auto, unfolding(crate::specs::Ring::is_capacity))]
pub fn is_capacity(n: u32) -> bool
    ensures { result ≡ is_capacity n }
{
    (1 <= n) & (n <= LARGEST)
}

#[tactic(auto, using(units::specs::Laws::Handed::refused_by, crate::specs::Laws::Passing::within), unfolding(units::specs::Handed::handed, units::specs::Replies::refusal, crate::specs::Rings::start, crate::specs::Ring::empty, crate::specs::Ring::fits, crate::specs::Ring::passes, crate::specs::Ring::push, crate::specs::Ring::reset, crate::specs::Calls::made, crate::specs::Calls::pushed, crate::specs::Calls::told, crate::specs::Calls::fronted, crate::specs::Calls::sized, crate::specs::Calls::held, crate::specs::Calls::forgotten, crate::specs::Calls::compared))]
impl Ring {
    // An empty ring that can hold so many peaks. A capacity that is not from 1 to 16 is refused with 4.
    pub fn new(capacity: u32) -> Result<Ring, Refusal>
        ensures { result ≡ handed (made capacity).reply (made capacity).ring }
    {
        check(true, is_capacity(capacity), true, true)?;
        Ok(Ring::empty(capacity))
    }

    // All 0, which is no ring: what stands where a ring was refused.
    pub fn none() -> Ring
        ensures { result ≡ empty 0 }
    {
        Ring::empty(0)
    }

    // Without peaks, of a capacity, and all slots 0.
    fn empty(capacity: u32) -> Ring
        ensures { result ≡ empty capacity }
    {
        Ring {
            stored: [0.0; STORAGE],
            capacity,
            place: 0,
            size: 0,
        }
    }

    // Whether a ring's numbers fit each other: a capacity from 1 to 16, a place below it and a size up to it. What is
    // stored is not looked at.
    pub fn fits(self) -> bool
        ensures { result ≡ fits self }
    {
        let n = self.capacity;
        is_capacity(n) & (self.place < n) & (self.size <= n)
    }

    // Whether a handed-in ring passes: its numbers fit each other, and every slot below its capacity is finite.
    pub fn passes(self) -> bool
        ensures { result ≡ passes self }
    {
        self.fits() && are_finite(self.slots())
    }

    // The slots of the ring: those below its capacity, and all of the storage where the capacity is larger than that.
    pub fn slots(&self) -> &[f32]
        ensures { result.now ≡ slots self.now.capacity self.now.stored }
    {
        &self.stored[..(self.capacity as usize).min(STORAGE)]
    }

    // The ring itself. One that fails its test is refused with 4.
    fn checked(self) -> Result<Ring, Refusal>
        ensures { result ≡ handed (refusal true (passes self) true true) self }
    {
        check(true, self.passes(), true, true)?;
        Ok(self)
    }

    // The ring with one peak more, at the cost of the oldest where it is full. A peak that is not
    // finite is refused with 2, after a ring that fails its test, with 4.
    pub fn push_back(self, peak: Dbfs) -> Result<Ring, Refusal>
        ensures { result ≡ handed (pushed self peak.0).reply (pushed self peak.0).ring }
    {
        let v = peak.0;
        check(true, self.passes(), floats::is_finite(v), true)?;
        Ok(self.store(v))
    }

    // The private steps ask for a ring that is `Within`. No type holds that fact: the fields of a ring are the C interface's, and
    // whoever has one may write them.
    // The Rust's push_back: the peak stored at the place, the place after it round the ring, and one
    // peak more, up to the ring's capacity.
    fn store(self, v: f32) -> Ring
        requires { Within self }
        ensures { result ≡ push self v }
    {
        let mut stored = self.stored;
        let capacity = self.capacity;
        let place = self.place as usize;
        let size = self.size;
        stored[place] = v;
        let after = self.place + 1;
        Ring {
            stored,
            capacity,
            place: floats::pick(after == capacity, 0, after),
            size: floats::pick(size < capacity, size + 1, size),
        }
    }

    // The oldest peak, or none. A ring that fails its test is refused with 4.
    pub fn front(self) -> Result<Option<Dbfs>, Refusal>
        ensures { told result ≡ fronted self }
    {
        Ok(self.checked()?.oldest())
    }

    // The Rust's front: none where there is no peak, otherwise what is stored at the front index.
    fn oldest(self) -> Option<Dbfs>
        requires { Within self }
        ensures { said result ≡ oldest (items self) }
    {
        let first = self.front_index();
        if 0 < self.size {
            Some(Dbfs(self.stored[first]))
        } else {
            None
        }
    }

    // Where the oldest peak is stored: at the place of the next one where the ring is full, and
    // otherwise at 0.
    fn front_index(self) -> usize
        ensures { result ≡ start self.capacity self.place self.size }
    {
        floats::pick(self.size == self.capacity, self.place as usize, 0)
    }

    // How many peaks there are. A ring that fails its test is refused with 4.
    pub fn size(self) -> Result<usize, Refusal>
        ensures { result ≡ handed (sized self).reply (sized self).size }
    {
        Ok(self.checked()?.size as usize)
    }

    // How many peaks the ring can hold. A ring that fails its test is refused with 4.
    pub fn capacity(self) -> Result<u32, Refusal>
        ensures { result ≡ handed (held self).reply (held self).capacity }
    {
        Ok(self.checked()?.capacity)
    }

    // The ring without its peaks, but with its storage as it is. A ring that fails its test is
    // refused with 4.
    pub fn reset(self) -> Result<Ring, Refusal>
        ensures { result ≡ handed (forgotten self).reply (forgotten self).ring }
    {
        let ring = self.checked()?;
        Ok(Ring {
            place: 0,
            size: 0,
            ..ring
        })
    }

    // Whether the two hold the same peaks, oldest first, by the float's own equality, whatever their capacities.
    // Where either ring fails its test it is refused with 4.
    pub fn equals(self, other: Ring) -> Result<bool, Refusal>
        ensures { result ≡ handed (compared self other).reply (compared self other).equal }
    {
        check(true, self.passes() & other.passes(), true, true)?;
        Ok(same_items(self, other))
    }

    // The peak of this number, counted from the oldest round the ring.
    fn peak(&self, i: usize) -> f32
        requires within { Within self.now }
        requires there { i < self.now.size }
        ensures { result ≡ get_or (items self.now) i nan }
    {
        let n = self.capacity as usize;
        self.stored[(self.front_index() + i) % n]
    }
}

// Whether each of these slots is finite.
fn are_finite(slots: &[f32]) -> bool
    ensures { result ≡ all_finite slots.now }
{
    slots.iter().all(|x| floats::is_finite(*x))
}

// The Rust's eq: as many peaks, and each equal to the other's, oldest first.
fn same_items(a: Ring, b: Ring) -> bool
    requires { Within a × Within b }
    ensures { result ≡ same_items (items a) (items b) }
{
    if a.size == b.size {
        let mut same = true;
        for i in 0..a.size as usize {
            same &= a.peak(i) == b.peak(i);
        }
        same
    } else {
        false
    }
}
