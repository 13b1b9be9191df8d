// Shelves by load over one lent region: whether a shelf is there, its load, an emptiest and a fullest.
// The first 1,025 words hold the load of each slot; then come two winner trees of 2,048 words each, of the emptiest and
// of the fullest. Slots count from 1 to 1,024, and 0 is none; all zeros are no shelves.
// Of equally loaded shelves the one with the lower slot wins.
#![tactic(auto)]

ghost use Rattle.std.specs.Prelude.{◌≡◌, ℕ, ◌+◌, ◌<◌, ◌≤◌, Bool, List, slice_set};
ghost use Rattle.std.proofs.Common.{rules};
ghost use Rattle.words.specs.Slots.{some_slot};
ghost use Rattle.loads_model.specs.Model.{a_slot, load_at, emptier, fuller, tree, leaf, winner_at, climb, replay, put_at, mark_at, emptiest_at, fullest_at, enter_at, leave_at, add_one_at, take_one_at};
ghost use Rattle.loads.specs.Entry.{emptiest_of, smaller};

use std::convert::AsSlice;
use words::{as_slot, read, write};

const SLOTS: u64 = 1024;

fn is_slot(slot: u64) -> bool
    ensures { result ≡ a_slot slot }
{
    (1..=SLOTS).contains(&slot)
}

// What the methods of `Loads` do are functions of the lent slice: as methods through a `&mut` lender, each step would have
// to say that it still lends the same memory.

#[tactic(auto, unfolding(loads_model::specs::Model::load_at))]
fn load_of(memory: &[u64], slot: u64) -> u64
    ensures { result ≡ load_at memory.now slot }
{
    if is_slot(slot) { read(memory, slot) } else { 0 }
}

// One of the two winner trees: the word at which it begins, and which of two shelves goes before the other.
// What a place holds is a number, where 0 is no slot, and no `Option`: it goes back into the memory as it is.
trait Tree {
    ghost BASE: { ℕ };

    ghost before: { List ℕ → ℕ → ℕ → Bool };

    const BASE: u64;

    // Whether slot x goes before slot y.
    fn goes_before(memory: &[u64], x: u64, y: u64) -> bool
        ensures { result ≡ before memory.now x y };

    // The sum of the base and a place fits 64 bits.
    ghost small: { BASE ≤ 3073 };

    // What a place holds.
    final fn at(memory: &[u64], place: u64) -> u64
        requires { place < 2048 }
        ensures { result ≡ tree BASE memory.now place }
    {
        read(memory, Self::BASE + place)
    }

    final fn set_at(memory: &mut [u64], place: u64, slot: u64)
        requires { place < 2048 }
        ensures { memory.new ≡ slice_set memory.old (BASE + place) slot }
    {
        write(memory, Self::BASE + place, slot);
    }

    // Who wins the match of a place's two children: the left one unless the right one goes before it.
    final fn winner(memory: &[u64], place: u64) -> u64
        requires { place < 1024 }
        ensures { result ≡ winner_at before BASE memory.now place }
    {
        let left = Self::at(memory, 2 * place);
        let right = Self::at(memory, 2 * place + 1);
        if right == 0 {
            left
        } else if left == 0 {
            right
        } else if Self::goes_before(memory, right, left) {
            right
        } else {
            left
        }
    }

    // Plays again the ten matches above a slot's leaf, from the lowest up. Where the winner stays and is not
    // the slot itself, no match above changes.
    final fn climb(memory: &mut [u64], slot: u64)
        requires { slot ≤ 1024 }
        ensures { memory.new ≡ climb before BASE slot 10 memory.old (leaf slot) }
    {
        let mut place = 1023 + slot;
        for _step in 0..10u64 {
            place /= 2;
            let best = Self::winner(memory, place);
            if best == Self::at(memory, place) && best != slot {
                return;
            }
            Self::set_at(memory, place, best);
        }
    }

    // Writes a slot's leaf, and what changes above it.
    final fn replay(memory: &mut [u64], slot: u64, mark: u64)
        requires { slot ≤ 1024 }
        ensures { memory.new ≡ replay before BASE memory.old slot mark }
    {
        Self::set_at(memory, 1023 + slot, mark);
        Self::climb(memory, slot);
    }
}

struct EmptiestFirst;

impl Tree for EmptiestFirst {
    ghost BASE = { 1025 };

    ghost before = { emptier };

    ghost small = { Prim.search rules };

    const BASE: u64 = 1025;

    fn goes_before(memory: &[u64], x: u64, y: u64) -> bool {
        load_of(memory, x) < load_of(memory, y)
    }
}

struct FullestFirst;

impl Tree for FullestFirst {
    ghost BASE = { 3073 };

    ghost before = { fuller };

    ghost small = { Prim.search rules };

    const BASE: u64 = 3073;

    fn goes_before(memory: &[u64], x: u64, y: u64) -> bool {
        load_of(memory, y) < load_of(memory, x)
    }
}

// Writes a slot's load, and its leaves, which hold the slot while the shelf is there, else 0; where it is no slot, nothing.
// A mark is a number and no bool, since in garbage memory a leaf may hold any word, which then stays.
#[tactic(auto, unfolding(loads_model::specs::Model::put_at))]
fn put(memory: &mut [u64], slot: u64, mark: u64, load: u64)
    ensures { memory.new ≡ put_at memory.old slot mark load }
{
    if is_slot(slot) {
        write(memory, slot, load);
        EmptiestFirst::replay(memory, slot, mark);
        FullestFirst::replay(memory, slot, mark);
    }
}

// Writes the load of a shelf, which is there or not as before.
#[tactic(auto, unfolding(loads_model::specs::Model::put_at, loads_model::specs::Model::mark_at))]
fn set_load(memory: &mut [u64], slot: u64, load: u64)
    ensures { memory.new ≡ put_at memory.old slot (mark_at memory.old slot) load }
{
    if slot <= SLOTS {
        let mark = EmptiestFirst::at(memory, 1023 + slot);
        put(memory, slot, mark, load);
    }
}

// The region as it is lent: a `&[u64]` is enough to read, a `&mut [u64]` may be changed.
#[derive(Drop)]
pub struct Loads<M> {
    pub memory: M,
}

impl<M: AsSlice<u64>> Loads<M> {
    // A shelf that is there and has the least load.
    #[tactic(auto, unfolding(loads_model::specs::Model::emptiest_at))]
    pub fn emptiest(&self) -> Option<u64>
        ensures { result ≡ some_slot (emptiest_at (M.items self.now.memory)) }
    {
        as_slot(EmptiestFirst::at(self.memory.as_slice(), 1))
    }

    // A shelf that is there and has the greatest load.
    #[tactic(auto, unfolding(loads_model::specs::Model::fullest_at))]
    pub fn fullest(&self) -> Option<u64>
        ensures { result ≡ some_slot (fullest_at (M.items self.now.memory)) }
    {
        as_slot(FullestFirst::at(self.memory.as_slice(), 1))
    }

    // The load of a shelf, 0 where it is no slot.
    pub fn load_of(&self, slot: u64) -> u64
        ensures { result ≡ load_at (M.items self.now.memory) slot }
    {
        load_of(self.memory.as_slice(), slot)
    }
}

// Each change says that the same words stay lent: a struct over lent words can't promise that for all its methods.
impl Loads<&mut [u64]> {
    // The shelf is there, with load 0; at what is no slot nothing is changed.
    pub fn enter(&mut self, slot: u64)
        ensures same { self.new.memory.ghost_name ≡ self.old.memory.ghost_name }
        ensures after { self.new.memory.now ≡ enter_at self.old.memory.now slot }
    {
        put(self.memory, slot, slot, 0);
    }

    // The shelf is not there any more, and has load 0.
    pub fn leave(&mut self, slot: u64)
        ensures same { self.new.memory.ghost_name ≡ self.old.memory.ghost_name }
        ensures after { self.new.memory.now ≡ leave_at self.old.memory.now slot }
    {
        put(self.memory, slot, 0, 0);
    }

    // One more on the shelf; the greatest load of 64 bits stays.
    pub fn add_one(&mut self, slot: u64)
        ensures same { self.new.memory.ghost_name ≡ self.old.memory.ghost_name }
        ensures after { self.new.memory.now ≡ add_one_at self.old.memory.now slot }
    {
        let load = self.load_of(slot);
        set_load(self.memory, slot, load.saturating_add(1));
    }

    // One less on the shelf; 0 stays.
    pub fn take_one(&mut self, slot: u64)
        ensures same { self.new.memory.ghost_name ≡ self.old.memory.ghost_name }
        ensures after { self.new.memory.now ≡ take_one_at self.old.memory.now slot }
    {
        let load = self.load_of(slot);
        set_load(self.memory, slot, load.saturating_sub(1));
    }
}

// The smaller of two numbers.
pub fn smaller_of(a: u64, b: u64) -> u64
    ensures { result ≡ smaller a b }
{
    a.min(b)
}

// The first place of the least load of a row. In one pass by an index: the library's `min` and `position` are two passes,
// and `min_by_key` takes up to 1.8 times as long.
pub fn emptiest(loads: &[u64]) -> Option<u64>
    ensures { result ≡ emptiest_of loads.now }
{
    let mut least = *loads.first()?;
    let mut place = 0;
    for i in 1..loads.len() {
        let load = loads[i];
        if load < least {
            place = i as u64;
        }
        least = smaller_of(load, least);
    }
    Some(place)
}
