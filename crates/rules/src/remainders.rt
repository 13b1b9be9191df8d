// By remainders: the good's number, modulo how many shelves there are, is a place in the list.
ghost use Rattle.rules.specs.Shelves.{OneOf, AtRemainder};

use crate::Rule;
use crate::rule::{insert, remove};
use std::alloc::{AllocError, Global};
use std::marker::Model;

#[derive(Drop)]
pub struct Remainders {
    shelves: Vec<u64>,
}

impl Model for Remainders {
    ghost use Rattle.std.specs.Prelude.{ℕ, List};

    ghost Value = { List ℕ };

    ghost view = { λ r. r.shelves.items };
}

impl Rule for Remainders {
    ghost shelves = { λ r. r };

    ghost gives = { λ r g s. AtRemainder r g s };

    const NAME: &'static str = "remainders";

    fn new(heap: Global) -> Remainders {
        Remainders {
            shelves: Vec::new(heap),
        }
    }

    fn of(_heap: Global, shelves: Vec<u64>) -> Result<Remainders, AllocError> {
        Ok(Remainders { shelves })
    }

    fn shelves(&self) -> &[u64] {
        self.shelves.as_slice()
    }

    fn shelf_for(&self, good: u64) -> Option<u64> {
        by_remainder(self.shelves.as_slice(), good)
    }

    fn shelf_comes(&mut self, _heap: Global, shelf: u64) -> Result<(), AllocError> {
        insert(&mut self.shelves, shelf)
    }

    fn shelf_goes(&mut self, _heap: Global, shelf: u64) -> Result<(), AllocError> {
        remove(&mut self.shelves, shelf);
        Ok(())
    }
}

// The shelf at that place, or none where there is no shelf.
#[tactic(auto, using(crate::proofs::Lists::has_at))]
pub fn by_remainder(shelves: &[u64], good: u64) -> Option<u64>
    ensures one { OneOf shelves.now result }
    ensures place { AtRemainder shelves.now good result }
{
    let count = shelves.len();
    if count == 0 {
        return None;
    }
    Some(shelves[(good % count as u64) as usize])
}
