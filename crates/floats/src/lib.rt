// f32 without surprises: the operations whose answer at a NaN, at an infinity or at a zero of
// either sign is easily got wrong, each with one equation for every input.

#![tactic(auto)]

ghost use Rattle.std.specs.Prelude.{◌≡◌, cond};
ghost use Rattle.std.specs.Float.Ieee.Scale.{finite};
ghost use Rattle.floats.specs.Choice.{larger, smaller, clamp};
ghost use Rattle.floats.specs.Kinds.{magnitude, is_negative_zero};

// The first of two values where b, otherwise the second. Both are at hand, so it takes no branch.
pub fn pick<T: Copy>(b: bool, x: T, y: T) -> T
    ensures { result ≡ cond b x y }
{
    if b { x } else { y }
}

// y where x is below y, otherwise x: the first is kept where they are equal, and where one is a NaN.
pub fn larger(x: f32, y: f32) -> f32
    ensures { result ≡ larger x y }
{
    pick(x < y, y, x)
}

// y where y is below x, otherwise x: the first is kept where they are equal, and where one is a NaN.
pub fn smaller(x: f32, y: f32) -> f32
    ensures { result ≡ smaller x y }
{
    pick(y < x, y, x)
}

// x brought up to low, and then down to high. A NaN stays a NaN.
pub fn clamp(x: f32, low: f32, high: f32) -> f32
    ensures { result ≡ clamp x low high }
{
    smaller(larger(x, low), high)
}

// x without its sign; of a NaN a NaN, and of -0 it is 0.
pub fn magnitude(x: f32) -> f32
    ensures { result ≡ magnitude x }
{
    larger(0.0 - x, x)
}

// Whether x is a number: no NaN and no infinity.
pub fn is_finite(x: f32) -> bool
    ensures { result ≡ finite x }
{
    x - x == 0.0
}

// Whether x is the zero with a sign.
pub fn is_negative_zero(x: f32) -> bool
    ensures { result ≡ is_negative_zero x }
{
    (x == 0.0) & (1.0 / x < 0.0)
}
