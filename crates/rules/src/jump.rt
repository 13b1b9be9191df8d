// By jump consistent hashing: each jump goes on to the place where the good would next move, were there more shelves.
ghost use Rattle.rules.specs.Shelves.{OneOf};

use crate::{Rule, mix};
use std::alloc::{AllocError, Global};
use std::marker::Model;

// The shelves are in order of arrival, and the last takes the place of one that goes.
#[derive(Drop)]
pub struct Jump {
    shelves: Vec<u64>,
}

impl Model for Jump {
    ghost use Rattle.std.specs.Prelude.{ℕ, List};

    ghost Value = { List ℕ };

    ghost view = { λ r. r.shelves.items };
}

impl Rule for Jump {
    ghost shelves = { λ r. r };

    const NAME: &'static str = "jump";

    fn new(heap: Global) -> Jump {
        Jump {
            shelves: Vec::new(heap),
        }
    }

    fn of(_heap: Global, shelves: Vec<u64>) -> Result<Jump, AllocError> {
        Ok(Jump { shelves })
    }

    fn shelves(&self) -> &[u64] {
        self.shelves.as_slice()
    }

    fn shelf_for(&self, good: u64) -> Option<u64> {
        by_jump(self.shelves.as_slice(), good)
    }

    fn with(&self, heap: Global, shelf: u64) -> Result<Jump, AllocError> {
        let mut rule = Jump::of(heap, Vec::from_slice(heap, self.shelves())?)?;
        rule.shelf_comes(heap, shelf)?;
        Ok(rule)
    }

    fn without(&self, heap: Global, shelf: u64) -> Result<Jump, AllocError> {
        let mut rule = Jump::of(heap, Vec::from_slice(heap, self.shelves())?)?;
        rule.shelf_goes(heap, shelf)?;
        Ok(rule)
    }

    fn shelf_comes(&mut self, _heap: Global, shelf: u64) -> Result<(), AllocError> {
        self.shelves.push(shelf)?;
        Ok(())
    }

    fn shelf_goes(&mut self, _heap: Global, shelf: u64) -> Result<(), AllocError> {
        if let Some(place) = self.shelves.iter().position(|other| *other == shelf) {
            let _ = self.shelves.swap_remove(place);
        }
        Ok(())
    }
}

// The first 2^32 - 1 shelves take part, so that no jump outgrows 64 bits. The jumps go as far as they go: no iterator counts them.
#[tactic(auto, using(crate::proofs::Lists::has_at))]
pub fn by_jump(shelves: &[u64], good: u64) -> Option<u64>
    ensures { OneOf shelves.now result }
{
    let count = shelves.len().min(0xffff_ffff) as u64;
    if count == 0 {
        return None;
    }
    let mut key = mix(good);
    let mut place = 0u64;
    let mut next = 0u64;
    while next < count {
        place = next;
        key = key.wrapping_mul(2_862_933_555_777_941_757).wrapping_add(1);
        next = (place + 1) * 0x8000_0000 / ((key >> 33) + 1);
    }
    Some(shelves[place as usize])
}
