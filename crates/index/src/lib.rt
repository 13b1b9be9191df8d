// Rows found by a 64-bit number: a digital search tree and a list of free rows over one lent region of words.
//
// Words 0 to 2: how many slots were ever taken, the first free slot, how many are in use. Then the heads, as many as
// BITS bits can count (1 to 32 bits, whatever is asked for), then rows of three words: number, left link, right link.
// Slots count from 1, 0 is none; what is no slot reads as none. All zeros are an empty index.
#![tactic(auto)]

ghost use Rattle.std.specs.Prelude.{◌≡◌, ◌^◌, ◌<◌, ◌≤◌, IfSome};
ghost use Rattle.words.specs.Slots.{some_slot};
ghost use Rattle.index_model.specs.Laws.{InsertTells, RemoveTells};
ghost use Rattle.index_model.specs.Sound.{SoundIn};
ghost use Rattle.index_model.specs.Model.{bit, capacity, child, count_at, cut_at, find_at, free_at, fresh_at, give_slot, hang, heads, insert_in, insert_slot, key, leaf, left, levels, locate_in, lower, name_slot, next_slot, number_at, put, remove_in, replace, row, slot_at, slot_of, span, take_slot, width, word};

use std::convert::AsSlice;
use words::{as_slot, read, write};

const FRESH: u64 = 0;

const FREE: u64 = 1;

const COUNT: u64 = 2;

// An odd number near 2^64 divided by the golden ratio.
const FACTOR: u64 = 0x9E37_79B9_7F4A_7C15;

// The bits of a key that choose its head.
fn width<const BITS: u64>() -> u64
    ensures { result ≡ width BITS }
{
    BITS.clamp(1, 32)
}

// How many heads there are.
#[tactic(auto, unfolding(index_model::specs::Model::heads))]
fn heads<const BITS: u64>() -> u64
    ensures is { result ≡ heads BITS }
    ensures some { 0 < result }
    ensures small { result ≤ 2 ^ 32 }
{
    1 << width::<BITS>()
}

// How many keys share a head.
#[tactic(auto, unfolding(index_model::specs::Model::span))]
fn span<const BITS: u64>() -> u64
    ensures is { result ≡ span BITS }
    ensures some { 0 < result }
{
    1 << (64 - width::<BITS>())
}

// How many levels a search has at most.
#[tactic(auto, unfolding(index_model::specs::Model::levels))]
fn levels<const BITS: u64>() -> u64
    ensures { result ≡ levels BITS }
{
    65 - width::<BITS>()
}

// A number's key: numbers that follow each other, or have equal low bits, have keys far apart.
#[tactic(auto, unfolding(index_model::specs::Model::key))]
fn key(number: u64) -> u64
    ensures { result ≡ key number }
{
    number.wrapping_mul(FACTOR)
}

// The highest bit of what is left of a key.
fn bit(half: u64, rest: u64) -> u64
    ensures is { result ≡ bit half rest }
    ensures small { result < 2 }
{
    u64::from(half <= rest)
}

// What is left of the key without that bit.
fn left(half: u64, rest: u64) -> u64
    ensures { result ≡ left half rest }
{
    rest.checked_sub(half).unwrap_or(rest)
}

// The word of a link.
fn word<const BITS: u64>(link: u64) -> u64
    requires { link < 2 ^ 62 }
    ensures { result ≡ word BITS link }
{
    3 + link + (link + 2).saturating_sub(heads::<BITS>()) / 2
}

// The word of a slot's number.
fn row<const BITS: u64>(slot: u64) -> u64
    requires { slot < 2 ^ 61 }
    ensures { result ≡ row BITS slot }
{
    heads::<BITS>() + 3 + 3 * slot
}

// One of a slot's two links. The side is a bit of a key, and no enum: it is added to the place. A slot is a plain number
// below 2^60: a type that holds the bound would be put on at each word that is read, and taken off at each that is written.
fn child<const BITS: u64>(slot: u64, side: u64) -> u64
    requires { (slot < 2 ^ 60) × (side < 2) }
    ensures is { result ≡ child BITS slot side }
    ensures some { 0 < result }
    ensures small { result < 2 ^ 62 }
{
    heads::<BITS>() + 2 * slot + side
}

// The index in these words: any that lend themselves as a slice are read, and those lent by a `&mut` are changed too.
#[derive(Drop)]
pub struct Index<M, const BITS: u64> {
    pub memory: M,
}

impl<M: AsSlice<u64>, const BITS: u64> Index<M, BITS> {
    // How many numbers fit: 0 where the memory is too short.
    pub fn capacity(&self) -> u64
        ensures is { result ≡ capacity BITS (M.items self.now.memory) }
        ensures small { result < 2 ^ 60 }
    {
        let words = self.memory.as_slice().len() as u64;
        words.saturating_sub(heads::<BITS>() + 6) / 3
    }

    // How many numbers there are.
    #[tactic(auto, unfolding(index_model::specs::Model::count_at))]
    pub fn count(&self) -> u64
        ensures { result ≡ count_at (M.items self.now.memory) }
    {
        read(self.memory.as_slice(), COUNT)
    }

    // The number of a slot, or 0 where it is none.
    #[tactic(auto, unfolding(index_model::specs::Model::number_at))]
    pub fn number_of(&self, slot: u64) -> u64
        ensures { result ≡ number_at BITS (M.items self.now.memory) slot }
    {
        if slot <= self.capacity() {
            read(self.memory.as_slice(), row::<BITS>(slot))
        } else {
            0
        }
    }

    // The slot of the number.
    #[tactic(auto, unfolding(index_model::specs::Model::find_at))]
    pub fn find(&self, number: u64) -> Option<u64>
        ensures { result ≡ some_slot (find_at BITS (M.items self.now.memory) number) }
    {
        self.slot_at(self.locate(number))
    }

    // The slot, or 0 for what is no slot: 0 is none in the memory.
    #[tactic(auto, unfolding(index_model::specs::Model::slot_of))]
    fn slot_of(&self, value: u64) -> u64
        ensures is { result ≡ slot_of BITS (M.items self.now.memory) value }
        ensures small { result < 2 ^ 60 }
    {
        if value <= self.capacity() { value } else { 0 }
    }

    // The slot that hangs at a link, or 0: it is written back into a link, or its own links are read, where 0 is none.
    #[tactic(auto, unfolding(index_model::specs::Model::slot_at, index_model::specs::Model::slot_of))]
    fn slot_or_zero(&self, link: u64) -> u64
        ensures is { result ≡ slot_at BITS (M.items self.now.memory) link }
        ensures small { result < 2 ^ 60 }
    {
        let memory = self.memory.as_slice();
        if link < memory.len() as u64 {
            self.slot_of(read(memory, word::<BITS>(link)))
        } else {
            0
        }
    }

    // The slot that hangs at a link.
    fn slot_at(&self, link: u64) -> Option<u64>
        ensures is { result ≡ some_slot (slot_at BITS (M.items self.now.memory) link) }
        ensures small { IfSome result (λ slot. slot < 2 ^ 60) }
    {
        as_slot(self.slot_or_zero(link))
    }

    // The first free slot.
    #[tactic(auto, unfolding(index_model::specs::Model::free_at))]
    fn free(&self) -> Option<u64>
        ensures { result ≡ some_slot (free_at BITS (M.items self.now.memory)) }
    {
        as_slot(self.slot_of(read(self.memory.as_slice(), FREE)))
    }

    // How many slots were ever taken.
    #[tactic(auto, unfolding(index_model::specs::Model::fresh_at))]
    fn fresh(&self) -> u64
        ensures { result ≡ fresh_at (M.items self.now.memory) }
    {
        read(self.memory.as_slice(), FRESH)
    }

    // The slot that is taken next.
    fn next_slot(&self) -> Option<u64>
        ensures { result ≡ some_slot (next_slot BITS (M.items self.now.memory)) }
    {
        let fresh = self.fresh();
        let untaken = (fresh < self.capacity()).then(|| fresh + 1);
        self.free().or(untaken)
    }

    // Where a search for the number ends. The range only bounds it.
    #[tactic(auto, using(crate::proofs::Steps::search_steps))]
    fn locate(&self, number: u64) -> u64
        ensures { result ≡ locate_in BITS (M.items self.now.memory) number }
    {
        let key = key(number);
        let span = span::<BITS>();
        let mut place = key / span;
        let mut rest = key % span;
        let mut half = span / 2;
        for level in 0..levels::<BITS>() {
            let Some(slot) = self.slot_at(place) else {
                return place;
            };
            if self.number_of(slot) == number {
                return place;
            }
            place = child::<BITS>(slot, bit(half, rest));
            rest = left(half, rest);
            half /= 2;
        }
        heads::<BITS>()
    }

    // A link below the link that a slot hangs at.
    fn lower(&self, place: u64) -> Option<u64>
        ensures { result ≡ some_slot (lower BITS (slot_at BITS (M.items self.now.memory)) place) }
    {
        // Not a `find` over both links: of a closure that holds `self` in generic code the search proves nothing.
        let slot = self.slot_or_zero(place);
        let left = child::<BITS>(slot, 0);
        if self.slot_at(left).is_some() {
            return Some(left);
        }
        let right = child::<BITS>(slot, 1);
        self.slot_at(right).is_some().then_some(right)
    }

    // A link below the link, or itself, whose slot has no children. The range only bounds the way.
    #[tactic(auto, using(crate::proofs::Steps::ways_down))]
    fn leaf_of(&self, start: u64) -> u64
        ensures { result ≡ leaf BITS (slot_at BITS (M.items self.now.memory)) (levels BITS) start }
    {
        let mut place = start;
        for level in 0..levels::<BITS>() {
            let Some(next) = self.lower(place) else {
                return place;
            };
            place = next;
        }
        place
    }
}

// Each change says that the same words stay lent: a struct over lent words can't promise that for all its methods. What
// holds of sound words alone has that as a premise, since any words are taken.
impl<const BITS: u64> Index<&mut [u64], BITS> {
    // Takes a new number in, at the slot that is told; nothing changes where it is there or there is no room.
    #[tactic(auto, using(index_model::proofs::Tells::insert_tells), unfolding(index_model::specs::Model::find_at, index_model::specs::Model::insert_slot, index_model::specs::Model::insert_in))]
    pub fn insert(&mut self, number: u64) -> Option<u64>
        ensures same { self.new.memory.ghost_name ≡ self.old.memory.ghost_name }
        ensures says { result ≡ some_slot (insert_slot BITS self.old.memory.now number) }
        ensures after { self.new.memory.now ≡ insert_in BITS self.old.memory.now number }
        ensures law { SoundIn BITS self.old.memory.now → InsertTells BITS self.old.memory.now number result self.new.memory.now }
    {
        if self.find(number).is_some() || self.count() >= self.capacity() {
            return None;
        }
        let slot = self.next_slot()?;
        self.take_slot(slot);
        self.hang(number, slot);
        Some(slot)
    }

    // Takes a number out, and its slot is free; nothing changes where it is not there.
    #[tactic(auto, unfolding(index_model::specs::Model::find_at, index_model::specs::Model::remove_in))]
    pub fn remove(&mut self, number: u64) -> Option<u64>
        ensures same { self.new.memory.ghost_name ≡ self.old.memory.ghost_name }
        ensures says { result ≡ some_slot (find_at BITS self.old.memory.now number) }
        ensures after { self.new.memory.now ≡ remove_in BITS self.old.memory.now number }
        ensures law { SoundIn BITS self.old.memory.now → RemoveTells BITS self.old.memory.now number result self.new.memory.now }
    {
        let link = self.locate(number);
        let slot = self.slot_at(link)?;
        self.cut(link);
        self.give_slot(slot);
        Some(slot)
    }

    // Hangs a slot at a link.
    #[tactic(auto, unfolding(index_model::specs::Model::put))]
    fn put(&mut self, link: u64, slot: u64)
        ensures same { self.new.memory.ghost_name ≡ self.old.memory.ghost_name }
        ensures after { self.new.memory.now ≡ put BITS self.old.memory.now link slot }
    {
        if link < self.memory.len() as u64 {
            write(self.memory, word::<BITS>(link), slot);
        }
    }

    // Gives a slot its number.
    #[tactic(auto, unfolding(index_model::specs::Model::name_slot))]
    fn name_slot(&mut self, slot: u64, number: u64)
        ensures same { self.new.memory.ghost_name ≡ self.old.memory.ghost_name }
        ensures after { self.new.memory.now ≡ name_slot BITS self.old.memory.now slot number }
    {
        if slot < self.memory.len() as u64 {
            write(self.memory, row::<BITS>(slot), number);
        }
    }

    // Hangs a slot where the number leads.
    fn hang(&mut self, number: u64, slot: u64)
        ensures same { self.new.memory.ghost_name ≡ self.old.memory.ghost_name }
        ensures after { self.new.memory.now ≡ hang BITS self.old.memory.now number slot }
    {
        let link = self.locate(number);
        self.put(link, slot);
        self.name_slot(slot, number);
    }

    // Takes the slot off the list of free ones, or off the fresh ones where that list is empty.
    fn take_slot(&mut self, slot: u64)
        requires { count_at self.old.memory.now < 2 ^ 60 }
        ensures same { self.new.memory.ghost_name ≡ self.old.memory.ghost_name }
        ensures after { self.new.memory.now ≡ take_slot BITS self.old.memory.now slot }
    {
        let count = self.count();
        if self.free().is_none() {
            write(self.memory, FRESH, slot);
        } else {
            let next = self.number_of(slot);
            write(self.memory, FREE, next);
        }
        write(self.memory, COUNT, count + 1);
    }

    // The slot y takes the place of x, and its children.
    #[tactic(auto, unfolding(index_model::specs::Model::replace))]
    fn replace(&mut self, link: u64, x: u64, y: u64)
        requires { (x < 2 ^ 60) × (y < 2 ^ 60) }
        ensures same { self.new.memory.ghost_name ≡ self.old.memory.ghost_name }
        ensures after { self.new.memory.now ≡ replace BITS self.old.memory.now link x y }
    {
        let from = child::<BITS>(x, 0);
        let to = child::<BITS>(y, 0);
        let left = self.slot_or_zero(from);
        let right = self.slot_or_zero(from + 1);
        self.put(to, left);
        self.put(to + 1, right);
        self.put(from, 0);
        self.put(from + 1, 0);
        self.put(link, y);
    }

    // Takes the slot at a link out of the tree: a leaf below takes its place.
    fn cut(&mut self, link: u64)
        ensures same { self.new.memory.ghost_name ≡ self.old.memory.ghost_name }
        ensures after { self.new.memory.now ≡ cut_at BITS self.old.memory.now link (leaf BITS (slot_at BITS self.old.memory.now) (levels BITS) link) }
    {
        let end = self.leaf_of(link);
        let x = self.slot_or_zero(link);
        let y = self.slot_or_zero(end);
        self.put(end, 0);
        if end != link {
            self.replace(link, x, y);
        }
    }

    // Makes a slot the first free one.
    fn give_slot(&mut self, slot: u64)
        ensures same { self.new.memory.ghost_name ≡ self.old.memory.ghost_name }
        ensures after { self.new.memory.now ≡ give_slot BITS self.old.memory.now slot }
    {
        let count = self.count();
        // 0 ends the list.
        let free = self.free().unwrap_or(0);
        self.name_slot(slot, free);
        write(self.memory, FREE, slot);
        write(self.memory, COUNT, count.saturating_sub(1));
    }
}
