// The bits of a float: read and made for every f32 and every number of 32 bits, a NaN's too.

#![tactic(auto)]

ghost use Rattle.std.specs.Prelude.{◌≡◌};
ghost use Rattle.std.specs.Float.{binary32};
ghost use Rattle.std.specs.Float.Ieee.{nan_bits};
ghost use Rattle.bits.specs.Floats.{float_of, pattern_of};

// Whether bits are those of a NaN.
pub fn is_nan(bits: u32) -> bool
    ensures { result ≡ nan_bits binary32 bits }
{
    (bits % 2147483648 / 8388608 == 255) & (bits % 8388608 != 0)
}

// The float of bits; of a NaN's bits, whichever they are, a NaN, which is not made of them.
pub fn float_of(bits: u32) -> f32
    ensures { result ≡ float_of bits }
{
    if is_nan(bits) {
        0.0 / 0.0
    } else {
        f32::from_bits(bits)
    }
}

// The bits of a float; of a NaN those with only the highest digit set.
pub fn bits_of(x: f32) -> u32
    ensures { result ≡ pattern_of x }
{
    if x == x { f32::to_bits(x) } else { 2143289344 }
}
