// By how much the loads of shelves differ.
ghost use Rattle.std.specs.Prelude.{◌≡◌, true, ◌&&◌, [], ◌==◌};
ghost use Rattle.hall.specs.House as house;
ghost use Rattle.hall.specs.House.{or, none_of};
ghost use Rattle.assignments.specs.Spots.{store};
ghost use Rattle.assignments.specs.Spread.{at_most, reached};

use crate::Assignment;
use placing::Spot;

// The greatest load of the shelves less the least; 0 where there is no shelf.
pub fn spread(assignment: &Assignment, shelves: &[u64]) -> u64
    ensures bound { at_most (store shelves.now assignment.now) result ≡ true }
    ensures tight { or (reached (store shelves.now assignment.now) result) (none_of shelves.now && result == 0) ≡ true }
{
    let spots = assignment.spots();
    let Some((first, others)) = shelves.split_first() else {
        return 0;
    };
    // A load takes a pass over all goods, so each is counted once, for both ends.
    let start = load(spots, *first);
    let (least, greatest) = others.iter().map(|shelf| load(spots, *shelf)).fold(
        (start, start),
        |(least, greatest), goods| (least.min(goods), greatest.max(goods)),
    );
    greatest - least
}

// How many goods are on a shelf.
fn load(spots: &[Spot], shelf: u64) -> u64
    ensures { result ≡ house.load (store [] spots.now) shelf }
{
    // A sum and no count of a `filter`: without a branch a pass takes half the time.
    spots
        .iter()
        .map(|spot| u64::from(spot.shelf == shelf))
        .sum()
}
