// Decibels to a ratio. It has no state, and one result: the ratio.
//
//   ratio X

use crate::figures::{Given, Sheet};
use crate::part::{Asked, Part, quiet, settled};
use units::kinds::Db;

// The part.
#[derive(Clone, Copy)]
pub struct Ratio;

impl Part for Ratio {
    type Question = ();

    const STATE: usize = 0;

    fn named(name: &[u8]) -> Option<Asked<()>> {
        match name {
            b"" => quiet((), 1),
            _ => None,
        }
    }

    fn read(_given: &mut Given<'_>) -> Ratio {
        Ratio
    }

    fn show(self, _sheet: &mut Sheet) {}

    fn next(
        self,
        _question: (),
        given: &mut Given<'_>,
        _frame: &mut [f32],
        told: &mut Sheet,
    ) -> (u32, Ratio) {
        let (reply, ratio) = settled(0.0, decibels::ratio(Db(given.float())));
        told.float(ratio);
        (reply, self)
    }
}
