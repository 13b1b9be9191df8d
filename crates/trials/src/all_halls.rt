// All halls that there could be of a few goods and shelves, and the fewest goods that are moved in a level one.

fn is_level(loads: &[u64]) -> bool {
    let highest = loads.iter().copied().max().unwrap_or(0);
    let lowest = loads.iter().copied().min().unwrap_or(0);
    highest.saturating_sub(lowest) < 2
}

// How many goods are moved in the hall with this number, where it is level. Its digits, to the base of how many shelves
// there are, are the places of the goods; one pass over them counts loads and moves.
fn moved_in(hall: u64, stood: &[Option<u64>], shelves: &[u64]) -> Option<u64> {
    let base = shelves.len() as u64;
    let mut rest = hall;
    let mut most = [0u64; 4];
    let loads = most.get_mut(..shelves.len())?;
    let mut moved = 0u64;
    for before in stood {
        let place = rest.checked_rem(base)? as usize;
        rest /= base;
        let load = loads.get_mut(place)?;
        *load = load.saturating_add(1);
        if before.is_some() && before != &shelves.get(place).copied() {
            moved = moved.saturating_add(1);
        }
    }
    is_level(loads).then_some(moved)
}

// The fewest goods that are moved in any level hall on these shelves, four at most, where each good stood on the shelf
// given before, or on none.
pub fn fewest_moved(stood: &[Option<u64>], shelves: &[u64]) -> u64 {
    let base = shelves.len() as u64;
    let halls = stood.iter().fold(1u64, |ways, _| ways.saturating_mul(base));
    (0..halls)
        .filter_map(|hall| moved_in(hall, stood, shelves))
        .min()
        .unwrap_or(u64::MAX)
}
