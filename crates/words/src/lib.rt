// Total access to lent memory, and slots as answers: past the end 0 is read and nothing is written; slot 0 is none.
#![tactic(auto)]

ghost use Rattle.std.specs.Prelude.{◌≡◌, slice_index, slice_set};
ghost use Rattle.words.specs.Slots.{some_slot};

// The word at a place, or 0 past the end.
pub fn read(region: &[u64], place: u64) -> u64
    ensures { result ≡ slice_index region.now place }
{
    region.get(place as usize).copied().unwrap_or(0)
}

// Writes the word at a place; past the end nothing is written.
pub fn write(region: &mut [u64], place: u64, value: u64)
    ensures { region.new ≡ slice_set region.old place value }
{
    // Not by `get_mut`: of a slice that was written through it a proof knows the length alone.
    let i = place as usize;
    if i < region.len() {
        region[i] = value;
    }
}

// A slot as an answer: slots count from 1, and 0 is none.
pub fn as_slot(word: u64) -> Option<u64>
    ensures { result ≡ some_slot word }
{
    (word != 0).then_some(word)
}
