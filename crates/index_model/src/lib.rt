// The laws of the index, over its model: no running code, each theorem on the contract of a small function.
#![tactic(auto)]

ghost use Rattle.index_model.specs.Laws.{KeyLaw, EmptyLaw, FoundLaw, ApartLaw, CountLaw, InsertLaw, RemoveLaw, RefuseLaw, RoomLaw, BoundLaw, NarrowLaw};

// A number of 64 bits has a key of its own.
pub fn key_law_stands()
    ensures { KeyLaw }
{}

// Zeros are an empty index.
pub fn empty_law_stands()
    ensures { EmptyLaw }
{}

// What is found has the number.
pub fn found_law_stands()
    ensures { FoundLaw }
{}

// Two numbers are never at one slot.
pub fn apart_law_stands()
    ensures { ApartLaw }
{}

// The count is how many numbers there are.
pub fn count_law_stands()
    ensures { CountLaw }
{}

// A new number comes in as long as there is room, and all others stay.
pub fn insert_law_stands()
    ensures { InsertLaw }
{}

// A number that is there goes, and all others stay.
pub fn remove_law_stands()
    ensures { RemoveLaw }
{}

// What is refused changes nothing.
pub fn refuse_law_stands()
    ensures { RefuseLaw }
{}

// So many words hold so many rows.
pub fn room_law_stands()
    ensures { RoomLaw }
{}

// Slots are within the capacity, and the memory stays as long as it was.
pub fn bound_law_stands()
    ensures { BoundLaw }
{}

// Words of 64 bits stay words of 64 bits.
pub fn narrow_law_stands()
    ensures { NarrowLaw }
{}
