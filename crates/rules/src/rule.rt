// What a rule is: it has shelves, and gives each good one of them.
ghost use Rattle.std.specs.Prelude.{◌≡◌, ℕ, List, [], ◌∷◌, Option, IfOk, MatchResult, ⊤};
ghost use Rattle.rules.specs.Shelves.{OneOf, Comes, Goes};

use std::alloc::{AllocError, Global};

// Three instances hold a list alone, and write `new`, `of`, `shelves` and the changes in place alike: one struct generic
// over the choice of a shelf would need a second trait and a type for each choice, for a line or two each.
pub trait Rule: Drop {
    // Its shelves, in the order in which it has them.
    ghost shelves: { Self → List ℕ };

    // What more it promises of the shelf of a good.
    ghost gives: { Self → ℕ → Option ℕ → Type 0 } = { λ _ _ _. ⊤ };

    const NAME: &'static str;

    // The rule for no shelf.
    fn new(heap: Global) -> Self
        ensures { shelves result ≡ [] };

    // The rule for these shelves.
    fn of(heap: Global, list: Vec<u64>) -> Result<Self, AllocError>
        ensures { IfOk result (λ r. shelves r ≡ list.items) };

    fn shelves(&self) -> &[u64]
        ensures { result.now ≡ shelves self.now };

    // The shelf of a good.
    fn shelf_for(&self, good: u64) -> Option<u64>
        ensures one { OneOf (shelves self.now) result }
        ensures more { gives self.now good result };

    // The rule once a shelf has come: the shelves are kept in ascending order.
    fn with(&self, heap: Global, shelf: u64) -> Result<Self, AllocError>
        ensures { IfOk result (λ r. Comes shelf (shelves self.now) (shelves r)) }
    {
        let mut list = Vec::from_slice(heap, self.shelves())?;
        insert(&mut list, shelf)?;
        Self::of(heap, list)
    }

    // The rule once a shelf has gone: the others stay in their order.
    fn without(&self, heap: Global, shelf: u64) -> Result<Self, AllocError>
        ensures { IfOk result (λ r. Goes shelf (shelves self.now) (shelves r)) }
    {
        let mut list = Vec::from_slice(heap, self.shelves())?;
        remove(&mut list, shelf);
        Self::of(heap, list)
    }

    // A shelf comes. Without memory nothing changes. A rule that holds a list alone changes it in place: a copy would
    // cost as much as there are shelves.
    fn shelf_comes(&mut self, heap: Global, shelf: u64) -> Result<(), AllocError>
        ensures { MatchResult result (λ _. Comes shelf (shelves self.old) (shelves self.new)) (λ _. self.new ≡ self.old) }
    {
        *self = self.with(heap, shelf)?;
        Ok(())
    }

    // A shelf goes. Without memory nothing changes.
    fn shelf_goes(&mut self, heap: Global, shelf: u64) -> Result<(), AllocError>
        ensures { MatchResult result (λ _. Goes shelf (shelves self.old) (shelves self.new)) (λ _. self.new ≡ self.old) }
    {
        *self = self.without(heap, shelf)?;
        Ok(())
    }
}

// Puts a shelf into an ascending list. Without memory the list stays.
pub(crate) fn insert(list: &mut Vec<u64>, shelf: u64) -> Result<(), AllocError>
    ensures { MatchResult result (λ _. Comes shelf list.old.items list.new.items) (λ _. list.new.items ≡ list.old.items) }
{
    let place = list.partition_point(|other| *other < shelf);
    list.insert(place, shelf)?;
    Ok(())
}

// Takes a shelf out of a list, the others in their order.
pub(crate) fn remove(list: &mut Vec<u64>, shelf: u64)
    ensures { Goes shelf list.old.items list.new.items }
{
    if let Some(place) = list.iter().position(|other| *other == shelf) {
        let _ = list.remove(place);
    }
}
