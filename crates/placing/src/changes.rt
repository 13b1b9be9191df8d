// One change of a part, in the words that are lent to it.
//
// Each stands in a function of the words alone: of a part that is made in place out of a field that is lent, the proof
// does not know what the field ends as.
ghost use Rattle.std.specs.Prelude.{◌≡◌, None};
ghost use Rattle.words.specs.Slots.{some_slot};
ghost use Rattle.index_model.specs.Model.{insert_slot, insert_in, remove_in};
ghost use Rattle.loads_model.specs.Model.{enter_at, leave_at, add_one_at, take_one_at};
ghost use Rattle.contents_model.specs.Model.{add_at, remove_at};

use contents::Contents;
use index::Index;
use loads::Loads;

// A new number gets a slot, if there is room.
pub(crate) fn insert<const BITS: u64>(memory: &mut [u64], number: u64) -> Option<u64>
    ensures says { result ≡ some_slot (insert_slot BITS memory.old number) }
    ensures after { memory.new ≡ insert_in BITS memory.old number }
    ensures refused { result ≡ None → memory.new ≡ memory.old }
{
    Index::<_, BITS> { memory }.insert(number)
}

// A number and its slot are gone.
pub(crate) fn remove<const BITS: u64>(memory: &mut [u64], number: u64)
    ensures { memory.new ≡ remove_in BITS memory.old number }
{
    Index::<_, BITS> { memory }.remove(number);
}

// The shelf at a slot takes part in the order of loads, with nothing on it.
pub(crate) fn enter(memory: &mut [u64], shelf: u64)
    ensures { memory.new ≡ enter_at memory.old shelf }
{
    Loads { memory }.enter(shelf);
}

// The shelf at a slot is out of the order of loads.
pub(crate) fn leave(memory: &mut [u64], shelf: u64)
    ensures { memory.new ≡ leave_at memory.old shelf }
{
    Loads { memory }.leave(shelf);
}

// One more on the shelf at a slot.
pub(crate) fn add_one(memory: &mut [u64], shelf: u64)
    ensures { memory.new ≡ add_one_at memory.old shelf }
{
    Loads { memory }.add_one(shelf);
}

// One less on the shelf at a slot.
pub(crate) fn take_one(memory: &mut [u64], shelf: u64)
    ensures { memory.new ≡ take_one_at memory.old shelf }
{
    Loads { memory }.take_one(shelf);
}

// The good at a slot is on the shelf at a slot.
pub(crate) fn add(memory: &mut [u64], shelf: u64, good: u64)
    ensures { memory.new ≡ add_at memory.old shelf good }
{
    Contents { memory }.add(shelf, good);
}

// The good at a slot is on no shelf.
pub(crate) fn take_out(memory: &mut [u64], good: u64)
    ensures { memory.new ≡ remove_at memory.old good }
{
    Contents { memory }.remove(good);
}
