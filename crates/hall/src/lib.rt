// The theory of stores: each theorem is the contract of a small function.
#![tactic(auto)]

ghost use Rattle.hall.specs.Claims.{LevelLoads, LevelCount, MovedAlike, MovedTriangle, MovedThrough, FewestLower, FewestRight, PutsCount, InAndOut, GreedyRight, GreedyCan};
ghost use Rattle.hall.specs.Promise.{GreedyKeeps};
ghost use Rattle.hall.specs.Spring.{Spring};
ghost use Rattle.hall.specs.Wrong.{Wrong};
ghost use Rattle.hall.specs.Cheats.{Cheats};

// A level store's shelves have the goods divided by the shelves, or one more.
pub fn level_loads_stands()
    ensures { LevelLoads }
{}

// As many shelves of a level store have one more as the remainder says.
pub fn level_count_stands()
    ensures { LevelCount }
{}

// Moved is counted alike from either side.
pub fn moved_alike_stands()
    ensures { MovedAlike }
{}

// Moved is never more than through a third store that has each good that the two share.
pub fn moved_triangle_stands()
    ensures { MovedTriangle }
{}

// Of stores with the same goods, moved is counted alike from either side, and never more than through a third.
pub fn moved_through_stands()
    ensures { MovedThrough }
{}

// No store that may be there after a command has fewer goods moved than `fewest`.
pub fn fewest_lower_stands()
    ensures { FewestLower }
{}

// How few have to be moved: no store that may be there has fewer, and some has no more.
pub fn fewest_right_stands()
    ensures { FewestRight }
{}

// Every change moves `fewest` goods, and puts these and the one that comes, and no other.
pub fn puts_count_stands()
    ensures { PutsCount }
{}

// A new shelf that goes again at once sends away just as many as it got.
pub fn in_and_out_stands()
    ensures { InAndOut }
{}

// Greedy moves leave a store that may be there, with as few moved as can be.
pub fn greedy_right_stands()
    ensures { GreedyRight }
{}

// There are always greedy moves.
pub fn greedy_can_stands()
    ensures { GreedyCan }
{}

// A machine that is greedy at each command keeps its whole promise.
pub fn greedy_keeps_stands()
    ensures { GreedyKeeps }
{}

// A worked spring, row by row.
pub fn spring_stands()
    ensures { Spring }
{}

// Rules that fail, each on a small store.
pub fn wrong_ways_stand()
    ensures { Wrong }
{}

// Machines that cheat, in four ways: none keeps the whole promise.
pub fn cheats_stand()
    ensures { Cheats }
{}
