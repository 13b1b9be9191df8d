// Where each good is, and how many goods two assignments have on different shelves.
ghost use Rattle.std.specs.Prelude.{◌≡◌, ℕ, true, List, [], ◌∷◌, MatchResult, ◌==◌};
ghost use Rattle.std.specs.Option.{option_to_list};
ghost use Rattle.hall.specs.House.{pick};
ghost use Rattle.assignments.specs.Spots.{shelf_in, ascends, moved_at, Here, Gap};
ghost use Rattle.assignments.specs.Carried.{Carried};

use placing::Spot;
use std::alloc::{AllocError, Global};
use std::marker::Model;

// Where each good is, in ascending order of the goods.
#[derive(Drop)]
pub struct Assignment {
    spots: Vec<Spot>,
}

impl Model for Assignment {
    ghost use Rattle.std.specs.Prelude.{◌≡◌, true, List};
    ghost use Rattle.placing.specs.declared.acts.Spot.{Spot};
    ghost use Rattle.assignments.specs.Spots.{ascends};

    ghost Value = { List Spot };

    ghost view = { λ a. a.spots.items };

    ghost invariant = { λ a. ascends a.spots.items ≡ true };
}

// By hand, so that it promises an equal value and copies the spots at one stroke; a derived one promises clones of the
// fields, and clones spot after spot.
impl Clone for Assignment {
    ghost is_clone = { λ a b. b ≡ a };

    fn clone(&self) -> Result<Assignment, AllocError> {
        let spots = Vec::from_slice(*self.spots.allocator(), self.spots())?;
        Ok(Assignment { spots })
    }
}

impl Assignment {
    // Of no good.
    pub fn new(heap: Global) -> Assignment
        ensures { result ≡ [] }
    {
        Assignment {
            spots: Vec::new(heap),
        }
    }

    // Each good with its shelf, in ascending order of the goods.
    pub fn spots(&self) -> &[Spot]
        ensures spots { result.now ≡ self.now }
        ensures ascending { ascends self.now ≡ true }
    {
        self.spots.as_slice()
    }

    // The shelf of a good.
    pub fn shelf_of(&self, good: u64) -> Option<u64>
        ensures { option_to_list result ≡ shelf_in self.now good }
    {
        match self.find(good) {
            Ok(place) => Some(self.spots[place].shelf),
            Err(_) => None,
        }
    }

    // Puts a good on a shelf, whether it was there or not. Without memory nothing changes.
    pub fn put(&mut self, spot: Spot) -> Result<(), AllocError>
        ensures { MatchResult result
            (λ _. (g : ℕ) → shelf_in self.new g ≡ pick (g == spot.good) (spot.shelf ∷ []) (shelf_in self.old g))
            (λ _. self.new ≡ self.old) }
    {
        match self.find(spot.good) {
            Ok(place) => {
                self.spots[place] = spot;
                Ok(())
            }
            Err(place) => Ok(self.spots.insert(place, spot)?),
        }
    }

    // The good at a place in the list is on this shelf from now on; past the last one nothing changes.
    pub fn reassign(&mut self, place: usize, shelf: u64)
        ensures { self.new ≡ moved_at self.old place shelf }
    {
        if place < self.spots.len() {
            self.spots[place].shelf = shelf;
        }
    }

    // Takes a good away, where it is there.
    pub fn remove(&mut self, good: u64)
        ensures { (g : ℕ) → shelf_in self.new g ≡ pick (g == good) [] (shelf_in self.old g) }
    {
        if let Ok(place) = self.find(good) {
            let _ = self.spots.remove(place);
        }
    }

    // The place of a good, or else the place where it would stand.
    fn find(&self, good: u64) -> Result<usize, usize>
        ensures { MatchResult result (λ i. Here good self.now i) (λ i. Gap good self.now i) }
    {
        let place = self.spots.partition_point(|spot| spot.good < good);
        match self.spots.get(place) {
            Some(spot) if spot.good == good => Ok(place),
            _ => Err(place),
        }
    }
}

// How many goods that are in both assignments are on another shelf in the second.
pub fn carried(before: &Assignment, after: &Assignment) -> u64
    ensures { Carried before.now after.now result }
{
    changed(before.spots(), after.spots())
}

// Goes through both lists side by side: each turn passes the smaller good, or the same good in both. One count for two
// lists that end apart: no iterator of one of them has it.
fn changed(mut before: &[Spot], mut after: &[Spot]) -> u64
    requires before_ascends { ascends before.now ≡ true }
    requires after_ascends { ascends after.now ≡ true }
    ensures { Carried before.now after.now result }
{
    let mut count = 0;
    while let (Some((first, rest)), Some((second, others))) = (
        before.split_first(),
        after.split_first(),
    ) {
        // By two tests: on the answer of `cmp` the next turn waits, and takes twice the time.
        if first.good < second.good {
            before = rest;
        } else if second.good < first.good {
            after = others;
        } else {
            if first.shelf != second.shelf {
                count += 1;
            }
            before = rest;
            after = others;
        }
    }
    count
}
