// What was found in every fourth sample each, since the machine takes four samples at a time.

ghost use Rattle.std.specs.Prelude.{◌≡◌, ◌*◌, ◌≤◌, ◌<◌, ◌+◌, ◌-◌, ◌++◌, length, drop};
ghost use lib.ListN.{replicate};
ghost use Rattle.floats.specs.Laws.Kinds.{nought};

use std::simd::prelude::*;

// The highest samples, the lowest, and the sums, which are numbers only where all samples are.
#[derive(Clone, Copy)]
pub(crate) struct Lanes {
    pub(crate) high: f32x4,
    pub(crate) low: f32x4,
    pub(crate) sum: f32x4,
    ghost whole: { (length high ≡ 4) × (length low ≡ 4) × (length sum ≡ 4) },
}

// At most three samples, filled up with zeros to four. They are not copied to an array of zeros: a load of all four would wait
// for the stores of the few.
fn filled(some: &[f32]) -> [f32; 4]
    requires { length some.now < 4 }
    ensures { result ≡ some.now ++ replicate (4 - length some.now) nought }
{
    match some {
        [x] => [*x, 0.0, 0.0, 0.0],
        [x, y] => [*x, *y, 0.0, 0.0],
        [x, y, z] => [*x, *y, *z, 0.0],
        _ => [0.0; 4],
    }
}

impl Lanes {
    ghost use Rattle.fixed_digital_level_estimator.specs.Lanes.{lanes_of, starting, Raised, column, peak};

    // Before any sample of a sub-frame: the sums go on.
    pub(crate) fn at(sum: f32x4) -> Lanes
        requires { length sum ≡ 4 }
        ensures { lanes_of result ≡ starting sum }
    {
        Lanes {
            high: f32x4::splat(0.0),
            low: f32x4::splat(0.0),
            sum,
        }
    }

    // Each lane raised by its sample of four.
    fn raise_by_four(self, block: &[f32]) -> Lanes
        requires { length block.now ≡ 4 }
        ensures { Raised (lanes_of self) block.now (lanes_of result) }
    {
        let x = f32x4::from_slice(block);
        Lanes {
            high: x.simd_lt(self.high).select(self.high, x),
            low: self.low.simd_lt(x).select(self.low, x),
            sum: self.sum + x,
        }
    }

    // The lanes raised by a sub-frame: by whole blocks of four, and by what is left, filled up with zeros.
    fn raise_by_part(self, part: &[f32]) -> Lanes
        ensures { Raised (lanes_of self) part.now (lanes_of result) }
    {
        let blocks = part.chunks_exact(4);
        let rest = blocks.remainder();
        let mut found = self;
        for block in blocks {
            found = found.raise_by_four(block);
        }
        if rest.is_empty() {
            found
        } else {
            found.raise_by_four(&filled(rest))
        }
    }

    // The lanes raised by one sub-frame of each channel.
    pub(crate) fn raise_by_column(
        self,
        frame: &[f32],
        at: usize,
        channels: usize,
        samples: usize,
        part: usize,
    ) -> Lanes
        requires { (length frame.now ≡ channels * samples) × (at + part ≤ samples) × (0 < samples) }
        ensures { Raised (lanes_of self) (column channels samples part (drop at frame.now)) (lanes_of result) }
    {
        let mut found = self;
        for channel in frame.chunks_exact(samples) {
            found = found.raise_by_part(&channel[at..at + part]);
        }
        found
    }

    // The largest magnitude that the lanes found.
    pub(crate) fn largest(self) -> f32
        ensures { result ≡ peak (lanes_of self) }
    {
        let [a, b, c, d] = self.high.to_array();
        let [e, f, g, h] = self.low.to_array();
        let high = floats::larger(floats::larger(floats::larger(a, b), c), d);
        let low = floats::smaller(floats::smaller(floats::smaller(e, f), g), h);
        floats::larger(0.0 - low, high)
    }
}
