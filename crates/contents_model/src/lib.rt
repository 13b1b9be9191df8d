// What the contents' model means: its laws, for every region.
#![tactic(auto)]

ghost use Rattle.contents_model.specs.Laws.{EmptyLaw, RowsLaw, AddLaw, AddKeeps, RemoveLaw, KeptLaw, StillLaw, FirstLaw, NextLaw, BoundsLaw, WalkLaw, ChainLaw};

// The region at the start.
pub fn start_stands()
    ensures empty { EmptyLaw }
    ensures rows { RowsLaw }
{}

// Adding and removing.
pub fn changes_stand()
    ensures add { AddLaw }
    ensures add_keeps { AddKeeps }
    ensures remove { RemoveLaw }
    ensures still { StillLaw }
    ensures kept { KeptLaw }
{}

// The first good of a shelf, the next of a good, and the walk over all of them.
pub fn reads_stand()
    ensures first { FirstLaw }
    ensures next { NextLaw }
    ensures walk { WalkLaw }
    ensures chain { ChainLaw }
    ensures bounds { BoundsLaw }
{}
