// What is on each shelf: over one lent region, a doubly linked list of goods for each shelf.
// The first 1,025 words hold the first good of each shelf slot; then come rows of three words, one for
// each good slot: its shelf, the next good of that shelf, the previous one. 0 is none.
#![tactic(auto)]

ghost use Rattle.std.specs.Prelude.{◌≡◌, ◌+◌, ◌^◌, ◌<◌, not, length};
ghost use Rattle.words.specs.Slots.{some_slot};
ghost use Rattle.contents_model.specs.Model.{rows, outside, field, head, shelf_at, first_at, next_at, previous_at, put_field, slot, add_at, remove_at, walk};
ghost use Rattle.contents_model.specs.Sound.{Sound};
ghost use Rattle.contents_model.specs.Laws.{Fits, Placed, Exactly};
ghost use Rattle.contents.specs.View.{shown};
ghost use Rattle.contents.specs.Columns.{place_of};
ghost use Rattle.std.specs.Iterator.{at_most, YieldsFirst};

use std::convert::AsSlice;
use words::{as_slot, read, write};

const HEADS: u64 = 1025;

// The columns of a good's row.
#[derive(Clone, Copy)]
enum Column {
    Shelf,
    Next,
    Previous,
}

// How many rows the region has.
#[tactic(auto, unfolding(contents_model::specs::Model::rows))]
fn rows(memory: &[u64]) -> u64
    ensures is { result ≡ rows memory.now }
    ensures small { result < 2 ^ 60 }
{
    (memory.len() as u64).saturating_sub(HEADS) / 3
}

// Whether it is a slot below the limit.
fn is_slot(slot: u64, limit: u64) -> bool
    ensures { result ≡ not (outside slot limit) }
{
    (1..limit).contains(&slot)
}

// A word of the memory that is a slot below the limit, or 0. Links stay such numbers, since they go back into the memory.
fn slot(word: u64, limit: u64) -> u64
    ensures { result ≡ slot word limit }
{
    if word < limit { word } else { 0 }
}

// A word of a good's row; 0 where there is no such good.
#[tactic(auto, unfolding(contents_model::specs::Model::field))]
fn field(memory: &[u64], good: u64, column: Column) -> u64
    ensures { result ≡ field memory.now good (place_of column) }
{
    if is_slot(good, rows(memory)) {
        read(memory, HEADS + 3 * good + column as u64)
    } else {
        0
    }
}

#[tactic(auto, unfolding(contents_model::specs::Model::put_field))]
fn put_field(memory: &mut [u64], good: u64, column: Column, value: u64)
    ensures { memory.new ≡ put_field memory.old good (place_of column) value }
{
    if is_slot(good, rows(memory)) {
        write(memory, HEADS + 3 * good + column as u64, value);
    }
}

// The word of a shelf; 0 where there is no such shelf.
#[tactic(auto, unfolding(contents_model::specs::Model::head))]
fn head(memory: &[u64], shelf: u64) -> u64
    ensures { result ≡ head memory.now shelf }
{
    if is_slot(shelf, HEADS) {
        read(memory, shelf)
    } else {
        0
    }
}

#[tactic(auto, unfolding(contents_model::specs::Model::shelf_at))]
fn shelf_at(memory: &[u64], good: u64) -> Option<u64>
    ensures { result ≡ some_slot (shelf_at memory.now good) }
{
    as_slot(slot(field(memory, good, Column::Shelf), HEADS))
}

#[tactic(auto, unfolding(contents_model::specs::Model::first_at))]
fn first_at(memory: &[u64], shelf: u64) -> u64
    ensures { result ≡ first_at memory.now shelf }
{
    slot(head(memory, shelf), rows(memory))
}

#[tactic(auto, unfolding(contents_model::specs::Model::next_at))]
fn next_at(memory: &[u64], good: u64) -> u64
    ensures { result ≡ next_at memory.now good }
{
    slot(field(memory, good, Column::Next), rows(memory))
}

#[tactic(auto, unfolding(contents_model::specs::Model::previous_at))]
fn previous_at(memory: &[u64], good: u64) -> u64
    ensures { result ≡ previous_at memory.now good }
{
    slot(field(memory, good, Column::Previous), rows(memory))
}

// The goods of one shelf in turn, as many as there are rows at most.
#[derive(Drop)]
pub struct Walk<'a> {
    memory: &'a [u64],
    // The good that comes next, a word of the memory: 0 is none.
    at: u64,
    left: u64,
}

impl<'a> Iterator for Walk<'a> {
    type Item = u64;

    ghost next_gives = { YieldsFirst shown };

    ghost remaining = { λ s. at_most s.left };

    #[tactic(auto, unfolding(crate::specs::View::shown, contents_model::specs::Model::walk_from))]
    fn next(&mut self) -> Option<u64> {
        if self.left == 0 {
            return None;
        }
        let good = as_slot(self.at)?;
        self.at = next_at(self.memory, good);
        self.left -= 1;
        Some(good)
    }
}

#[tactic(auto, using(contents_model::proofs::Laws::walk_law), unfolding(contents_model::specs::Model::walk, crate::specs::View::shown))]
fn walk_of<'a>(memory: &'a [u64], shelf: u64) -> Walk<'a>
    ensures is { shown result ≡ walk memory.now shelf }
    ensures exactly { Sound memory.now → 0 < shelf → Exactly memory.now shelf (shown result) }
{
    Walk {
        memory,
        at: first_at(memory, shelf),
        left: rows(memory),
    }
}

// The region as it is lent: a `&[u64]` is enough to read, a `&mut [u64]` may be changed.
#[derive(Drop)]
pub struct Contents<M> {
    pub memory: M,
}

impl<M: AsSlice<u64>> Contents<M> {
    // The shelf that a good is on.
    pub fn shelf_of(&self, good: u64) -> Option<u64>
        ensures { result ≡ some_slot (shelf_at (M.items self.now.memory) good) }
    {
        shelf_at(self.memory.as_slice(), good)
    }

    // The good that stands first on a shelf.
    pub fn first(&self, shelf: u64) -> Option<u64>
        ensures { result ≡ some_slot (first_at (M.items self.now.memory) shelf) }
    {
        as_slot(first_at(self.memory.as_slice(), shelf))
    }

    // The good that stands after this one on its shelf.
    pub fn next(&self, good: u64) -> Option<u64>
        ensures { result ≡ some_slot (next_at (M.items self.now.memory) good) }
    {
        as_slot(next_at(self.memory.as_slice(), good))
    }

    // The goods of a shelf, from the first on.
    pub fn walk(&self, shelf: u64) -> Walk<'_>
        ensures is { shown result ≡ walk (M.items self.now.memory) shelf }
        ensures exactly { Sound (M.items self.now.memory) → 0 < shelf → Exactly (M.items self.now.memory) shelf (shown result) }
    {
        walk_of(self.memory.as_slice(), shelf)
    }

    // How many goods are on a shelf.
    pub fn count(&self, shelf: u64) -> u64
        ensures { result ≡ length (walk (M.items self.now.memory) shelf) }
    {
        self.walk(shelf).count() as u64
    }
}

impl<'a> Contents<&'a [u64]> {
    // The goods of a shelf, from the first on, for as long as the words are lent.
    pub fn into_walk(self, shelf: u64) -> Walk<'a>
        ensures is { shown result ≡ walk self.entry.memory.now shelf }
        ensures exactly { Sound self.entry.memory.now → 0 < shelf → Exactly self.entry.memory.now shelf (shown result) }
    {
        walk_of(self.memory, shelf)
    }
}

// Each change says that the same words stay lent: a struct over lent words can't promise that for all its methods. What
// holds of sound words alone has that as a premise, since any words are taken.
// Each change reborrows the lent slice once: of a field that is passed on as `&[u64]`, a proof keeps the length alone.
impl Contents<&mut [u64]> {
    // Puts a good that is on no shelf in front of the others of a shelf; where there is no such good
    // or shelf, or the good is on a shelf, nothing is changed.
    #[tactic(auto, using(contents_model::proofs::Laws::add_keeps), unfolding(contents_model::specs::Model::add_at))]
    pub fn add(&mut self, shelf: u64, good: u64)
        ensures same { self.new.memory.ghost_name ≡ self.old.memory.ghost_name }
        ensures is { self.new.memory.now ≡ add_at self.old.memory.now shelf good }
        ensures sound { Sound self.old.memory.now → Sound self.new.memory.now }
        ensures placed { Sound self.old.memory.now → Fits self.old.memory.now shelf good → Placed self.old.memory.now self.new.memory.now good shelf }
    {
        let memory = &mut *self.memory;
        let rows = rows(memory);
        if is_slot(shelf, HEADS) && is_slot(good, rows) && shelf_at(memory, good).is_none() {
            let first = first_at(memory, shelf);
            put_field(memory, first, Column::Previous, good);
            put_field(memory, good, Column::Shelf, shelf);
            put_field(memory, good, Column::Next, first);
            put_field(memory, good, Column::Previous, 0);
            write(memory, shelf, good);
        }
    }

    // Takes a good from its shelf; where it is on none, nothing is changed.
    #[tactic(auto, using(crate::proofs::NoGood::put_none), unfolding(contents_model::specs::Model::remove_at))]
    pub fn remove(&mut self, good: u64)
        ensures same { self.new.memory.ghost_name ≡ self.old.memory.ghost_name }
        ensures is { self.new.memory.now ≡ remove_at self.old.memory.now good }
        ensures placed { Sound self.old.memory.now → Placed self.old.memory.now self.new.memory.now good 0 }
    {
        let memory = &mut *self.memory;
        let Some(shelf) = shelf_at(memory, good) else {
            return;
        };
        let next = next_at(memory, good);
        let previous = previous_at(memory, good);
        match as_slot(previous) {
            Some(before) => put_field(memory, before, Column::Next, next),
            None => write(memory, shelf, next),
        }
        put_field(memory, next, Column::Previous, previous);
        put_field(memory, good, Column::Shelf, 0);
        put_field(memory, good, Column::Next, 0);
        put_field(memory, good, Column::Previous, 0);
    }
}
