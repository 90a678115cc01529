// What a call refuses, and the numbers of the replies of documents 01 and 02.

ghost use Rattle.std.specs.Prelude.{◌≡◌};
ghost use Rattle.units.specs.Replies.{refusal};
ghost use Rattle.units.specs.Handed.{number_of, handed};

use std::fmt;

// Why a call is refused. What it was lent stays as it was.
#[derive(Clone, Copy, Debug, PartialEq, Eq, Hash)]
pub enum Refusal {
    // Channels, samples or length out of shape, or samples that are not those that were set.
    Shape = 1,
    // A figure that is a NaN or out of range.
    Figure = 2,
    // A sample that is a NaN, infinite or too large.
    Sample = 3,
    // A setting that is a NaN, out of range or a negative zero; a handed-in state that fails its test.
    Setting = 4,
    // A strip that ends inside a head or a record.
    Cut = 5,
    // A strip's length field that is wrong.
    Length = 6,
    // A strip whose version is neither 1 nor 2, or not the one that is asked for.
    Version = 7,
    // An output buffer that is too short.
    Room = 8,
    // A strip that cannot be said in the version that it is carried to.
    Unsaid = 9,
}

impl Refusal {
    // The number of a refusal in the replies of documents 01 and 02.
    pub fn number(self) -> u32
        ensures { result ≡ number_of self }
    {
        self as u32
    }
}

// The number alone, in decimal digits.
impl fmt::Display for Refusal {
    ghost use Rattle.std.specs.Prelude.{Some, decimal};

    ghost output = { λ refusal. Some (decimal (number_of refusal)) };

    fn fmt<W: fmt::Write>(&self, f: &mut fmt::Formatter<W>) -> fmt::Result {
        write!(f, "{}", self.number())
    }
}

// Refuses with the first that applies, in the order 1, 4, 2, 3, where each argument says that its kind of input is as it
// should be.
#[tactic(auto, unfolding(crate::specs::Replies::refusal, crate::specs::Handed::handed, crate::specs::Handed::refusal_of))]
pub fn check(shape: bool, setting: bool, figure: bool, sample: bool) -> Result<(), Refusal>
    ensures { result ≡ handed (refusal shape setting figure sample) tt }
{
    if !shape {
        Err(Refusal::Shape)
    } else if !setting {
        Err(Refusal::Setting)
    } else if !figure {
        Err(Refusal::Figure)
    } else if !sample {
        Err(Refusal::Sample)
    } else {
        Ok(())
    }
}

#[cfg(test)]
mod tests {
    use super::*;
    use std::test::Fail;

    // The numbers are those of documents 01 and 02.
    #[test]
    fn a_refusal_prints_its_number(rt: HostRuntime) -> Result<(), Fail> {
        for (refusal, number) in [
            (Refusal::Shape, "1"),
            (Refusal::Figure, "2"),
            (Refusal::Sample, "3"),
            (Refusal::Setting, "4"),
            (Refusal::Cut, "5"),
            (Refusal::Length, "6"),
            (Refusal::Version, "7"),
            (Refusal::Room, "8"),
            (Refusal::Unsaid, "9"),
        ] {
            let printed = refusal.to_string(rt.alloc())?;
            assert_eq!(rt; printed.as_str(), number);
        }
        Ok(())
    }
}
