// By rendezvous hashing: the shelf whose hash together with the good is the greatest.
ghost use Rattle.rules.specs.Shelves.{OneOf};

use crate::rule::{insert, remove};
use crate::{Rule, mix};
use std::alloc::{AllocError, Global};
use std::marker::Model;

#[derive(Drop)]
pub struct Rendezvous {
    shelves: Vec<u64>,
}

impl Model for Rendezvous {
    ghost use Rattle.std.specs.Prelude.{ℕ, List};

    ghost Value = { List ℕ };

    ghost view = { λ r. r.shelves.items };
}

impl Rule for Rendezvous {
    ghost shelves = { λ r. r };

    const NAME: &'static str = "rendezvous";

    fn new(heap: Global) -> Rendezvous {
        Rendezvous {
            shelves: Vec::new(heap),
        }
    }

    fn of(_heap: Global, shelves: Vec<u64>) -> Result<Rendezvous, AllocError> {
        Ok(Rendezvous { shelves })
    }

    fn shelves(&self) -> &[u64] {
        self.shelves.as_slice()
    }

    fn shelf_for(&self, good: u64) -> Option<u64> {
        by_rendezvous(self.shelves.as_slice(), good)
    }

    fn shelf_comes(&mut self, _heap: Global, shelf: u64) -> Result<(), AllocError> {
        insert(&mut self.shelves, shelf)
    }

    fn shelf_goes(&mut self, _heap: Global, shelf: u64) -> Result<(), AllocError> {
        remove(&mut self.shelves, shelf);
        Ok(())
    }
}

// Two shelves never tie, since each step of a score can be undone.
#[tactic(auto, using(crate::proofs::Lists::has_item))]
pub fn by_rendezvous(shelves: &[u64], good: u64) -> Option<u64>
    ensures { OneOf shelves.now result }
{
    let best = shelves.iter().max_by_key(|shelf| score(**shelf, good))?;
    Some(*best)
}

fn score(shelf: u64, good: u64) -> u64 {
    mix(good ^ mix(shelf))
}
