// A rule that is carried out beside the machine: its shelves, and where it has the goods.
ghost use Rattle.std.specs.Prelude.{◌≡◌, ℕ, [], Option, IfOk, MatchResult, ◌==◌};
ghost use Rattle.hall.specs.House.{pick};
ghost use Rattle.assignments.specs.Carried.{Carried};
ghost use Rattle.assignments.specs.Spots.{shelf_in};
ghost use Rattle.rules.specs.Shelves.{OneOf, Comes, Goes, Placed};

use crate::Rule;
use assignments::{Assignment, carried};
use placing::Spot;
use std::alloc::{AllocError, Global};

#[derive(Drop)]
pub struct Rival<R: Rule> {
    rule: R,
    assignment: Assignment,
}

impl<R: Rule> Rival<R> {
    pub fn new(heap: Global) -> Rival<R>
        ensures shelves { R.shelves result.rule ≡ [] }
        ensures assignment { result.assignment ≡ [] }
    {
        Rival {
            rule: R::new(heap),
            assignment: Assignment::new(heap),
        }
    }

    pub fn shelves(&self) -> &[u64]
        ensures { result.now ≡ R.shelves self.now.rule }
    {
        self.rule.shelves()
    }

    pub fn assignment(&self) -> &Assignment
        ensures { result.now ≡ self.now.assignment }
    {
        &self.assignment
    }

    // The shelf that the rule gives a good.
    pub fn shelf_for(&self, good: u64) -> Option<u64>
        ensures one { OneOf (R.shelves self.now.rule) result }
        ensures more { R.gives self.now.rule good result }
    {
        self.rule.shelf_for(good)
    }

    // Without memory nothing changes.
    pub fn good_comes(&mut self, good: u64) -> Result<(), AllocError>
        ensures { MatchResult result
            (λ _. (s : Option ℕ) × OneOf (R.shelves self.old.rule) s × R.gives self.old.rule good s × Placed self.old.assignment self.new.assignment good s)
            (λ _. self.new ≡ self.old) }
    {
        let Some(shelf) = self.shelf_for(good) else {
            return Ok(());
        };
        self.assignment.put(Spot { good, shelf })
    }

    pub fn good_goes(&mut self, good: u64)
        ensures { (g : ℕ) → shelf_in self.new.assignment g ≡ pick (g == good) [] (shelf_in self.old.assignment g) }
    {
        self.assignment.remove(good);
    }

    // A shelf comes: how many goods are carried. Without memory nothing changes.
    pub fn shelf_comes(&mut self, heap: Global, shelf: u64) -> Result<u64, AllocError>
        ensures goods { MatchResult result (Carried self.old.assignment self.new.assignment) (λ _. self.new ≡ self.old) }
        ensures shelves { IfOk result (λ _. Comes shelf (R.shelves self.old.rule) (R.shelves self.new.rule)) }
    {
        let next = self.assignment.clone()?;
        self.rule.shelf_comes(heap, shelf)?;
        Ok(self.assign(heap, next))
    }

    // A shelf goes: how many goods are carried. Without memory nothing changes.
    pub fn shelf_goes(&mut self, heap: Global, shelf: u64) -> Result<u64, AllocError>
        ensures goods { MatchResult result (Carried self.old.assignment self.new.assignment) (λ _. self.new ≡ self.old) }
        ensures shelves { IfOk result (λ _. Goes shelf (R.shelves self.old.rule) (R.shelves self.new.rule)) }
    {
        // Where the last shelf goes no good stays, and no copy is needed.
        let last = self.shelves().len() == 1 && self.shelves().contains(&shelf);
        let next = if last {
            Assignment::new(heap)
        } else {
            self.assignment.clone()?
        };
        self.rule.shelf_goes(heap, shelf)?;
        Ok(self.assign(heap, next))
    }

    // The goods are where the rule has them from now on: how many are carried.
    fn assign(&mut self, heap: Global, copy: Assignment) -> u64
        ensures goods { Carried self.old.assignment self.new.assignment result }
        ensures rule { self.new.rule ≡ self.old.rule }
    {
        let next = assigned(heap, &self.rule, self.assignment.spots(), copy);
        let count = carried(&self.assignment, &next);
        self.assignment = next;
        count
    }
}

// These goods where the rule has them, written over a copy of them: once the rule has changed nothing may fail.
fn assigned<R: Rule>(heap: Global, rule: &R, spots: &[Spot], copy: Assignment) -> Assignment {
    if rule.shelves().is_empty() {
        return Assignment::new(heap);
    }
    let mut next = copy;
    for (place, spot) in spots.iter().enumerate() {
        if let Some(shelf) = rule.shelf_for(spot.good) {
            next.reassign(place, shelf);
        }
    }
    next
}
