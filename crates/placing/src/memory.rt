// The machine's memory, by its registers and parts.
ghost use Rattle.std.specs.Prelude.{◌≡◌};

use contents::Contents;
use index::Index;
use loads::Loads;

// How many words the parts have, and all together with the two registers and the contents.
pub(crate) const GOODS_WORDS: usize = 131078;

pub(crate) const SHELVES_WORDS: usize = 4102;

pub(crate) const LOADS_WORDS: usize = 5121;

pub const WORDS: usize = 239635;

// How many bits of a key choose the head of its tree.
pub(crate) const GOODS_BITS: u64 = 15;

pub(crate) const SHELVES_BITS: u64 = 10;

// The words that the machine is lent: the phase, the slot of the shelf that the step is about, and the parts.
#[derive(Drop)]
pub(crate) struct Machine<'a> {
    pub(crate) phase: &'a mut u64,
    pub(crate) subject: &'a mut u64,
    pub(crate) goods: &'a mut [u64],
    pub(crate) shelves: &'a mut [u64],
    pub(crate) loads: &'a mut [u64],
    pub(crate) contents: &'a mut [u64],
}

impl Machine<'_> {
    pub(crate) fn goods(&self) -> Index<&[u64], GOODS_BITS>
        ensures { result.memory.now ≡ self.now.goods.now }
    {
        Index {
            memory: &*self.goods,
        }
    }

    pub(crate) fn shelves(&self) -> Index<&[u64], SHELVES_BITS>
        ensures { result.memory.now ≡ self.now.shelves.now }
    {
        Index {
            memory: &*self.shelves,
        }
    }

    pub(crate) fn loads(&self) -> Loads<&[u64]>
        ensures { result.memory.now ≡ self.now.loads.now }
    {
        Loads {
            memory: &*self.loads,
        }
    }

    pub(crate) fn contents(&self) -> Contents<&[u64]>
        ensures { result.memory.now ≡ self.now.contents.now }
    {
        Contents {
            memory: &*self.contents,
        }
    }
}
