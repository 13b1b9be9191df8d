// The lines that are written: a good is put on a shelf, or a step is refused.
ghost use Rattle.std.specs.Prelude.{Some};
ghost use Rattle.carry.specs.Lines.{line_of};

use placing::{Refusal, Spot};
use std::fmt;

// An enum of its own: `Display` can't be written for a `Result` of the library.
#[derive(Clone, Copy)]
pub enum Line {
    Put(Spot),
    Refused(Refusal),
}

impl fmt::Display for Line {
    ghost output = { λ x. Some (line_of x) };

    fn fmt<W: fmt::Write>(&self, f: &mut fmt::Formatter<W>) -> fmt::Result {
        match *self {
            Line::Put(spot) => write!(f, "{} on {}", spot.good, spot.shelf),
            Line::Refused(why) => write!(f, "refused {}", u64::from(why)),
        }
    }
}
