// The index beside a plain list: rows by slot, looked through from the first to the last.
use index::Index;
use std::array;
use std::convert::AsSlice;
use std::process::Abort;

// A key's number is the key times this: the inverse, modulo 2^64, of what a number is multiplied by.
const INVERSE: u64 = 0xF1DE_83E1_9937_733D;

const ROWS: usize = 65;

const NUMBERS: usize = 72;

// The words of an index of 64 rows, with 2 heads and with 16.
const DEEP: usize = 200;

const WIDE: usize = 214;

// An index, and the number at each slot. Slot 0 is none, so no number is there.
#[derive(Drop)]
struct Both<'a, const BITS: u64> {
    index: Index<&'a mut [u64], BITS>,
    rows: [Option<u64>; ROWS],
}

impl<const BITS: u64> Both<'_, BITS> {
    // The slot of a number in the plain list.
    fn slot_of(&self, number: u64) -> Option<u64> {
        let place = self.rows.iter().position(|row| *row == Some(number))?;
        Some(place as u64)
    }

    fn used(&self) -> u64 {
        self.rows.iter().flatten().count() as u64
    }

    // Whether the index answers as the plain list does.
    fn reads_right(&self, number: u64) -> bool {
        let slot = self.slot_of(number);
        self.index.count() == self.used()
            && self.index.find(number) == slot
            && slot.is_none_or(|slot| self.index.number_of(slot) == number)
    }

    // Inserts the number in both; whether the index did right.
    fn inserts_right(&mut self, number: u64) -> bool {
        let there = self.slot_of(number).is_some();
        let full = self.used() >= self.index.capacity();
        let Some(slot) = self.index.insert(number) else {
            return (there || full) && self.reads_right(number);
        };
        let Some(row) = self.rows.get_mut(slot as usize) else {
            return false;
        };
        if there || full || slot == 0 || row.is_some() {
            return false;
        }
        *row = Some(number);
        self.reads_right(number)
    }

    // Removes the number from both; whether the index did right.
    fn removes_right(&mut self, number: u64) -> bool {
        let slot = self.slot_of(number);
        self.rows = self.rows.map(|row| row.filter(|held| *held != number));
        self.index.remove(number) == slot && self.reads_right(number)
    }

    // Removes a number and inserts another, so that a freed row is taken again.
    fn mixes_right(&mut self, gone: u64, come: u64) -> bool {
        self.removes_right(gone) && self.inserts_right(come)
    }
}

// Every `step`-th of the numbers, from the first on and round again.
fn strided(numbers: &[u64; NUMBERS], step: usize) -> [u64; NUMBERS] {
    array::from_fn(|i| numbers[i.wrapping_mul(step) % NUMBERS])
}

// Fills the index, mixes, empties it and fills it again. There are more numbers than rows.
fn goes_right<const BITS: u64>(memory: &mut [u64], numbers: &[u64; NUMBERS]) -> bool {
    let fifths = strided(numbers, 5);
    let sevenths = strided(numbers, 7);
    let elevenths = strided(numbers, 11);
    let mut both = Both::<BITS> {
        index: Index { memory },
        rows: [None; ROWS],
    };
    numbers.iter().all(|n| both.inserts_right(*n))
        && numbers.iter().all(|n| both.reads_right(*n))
        && fifths
            .iter()
            .zip(&sevenths)
            .all(|(gone, come)| both.mixes_right(*gone, *come))
        && numbers.iter().all(|n| both.reads_right(*n))
        && elevenths.iter().all(|n| both.removes_right(*n))
        && both.index.count() == 0
        && fifths.iter().all(|n| both.inserts_right(*n))
        && both.index.count() == both.index.capacity()
        && numbers.iter().all(|n| both.removes_right(*n))
        && both.index.count() == 0
}

// Both a deep and a wide index on these numbers.
fn both_go_right(rt: &impl Abort, numbers: &[u64; NUMBERS]) {
    let mut deep = [0u64; DEEP];
    let mut wide = [0u64; WIDE];
    assert!(rt; Index::<&[u64], 1> { memory: &deep }.capacity() == 64);
    assert!(rt; Index::<&[u64], 4> { memory: &wide }.capacity() == 64);
    assert!(rt; goes_right::<1>(&mut deep, numbers));
    assert!(rt; goes_right::<4>(&mut wide, numbers));
}

// first, first + step, first + 2 step ..
fn row_of(first: u64, step: u64) -> [u64; NUMBERS] {
    array::from_fn(|i| first.wrapping_add(step.wrapping_mul(i as u64)))
}

// The next number of a shift register.
fn shifted(number: u64) -> u64 {
    let mut n = number;
    n ^= n.wrapping_mul(8192);
    n ^= n / 128;
    n ^ n.wrapping_mul(131072)
}

#[test]
fn random_numbers(rt: HostRuntime) {
    let mut number = 88172645463325252;
    let numbers = array::from_fn(|_| {
        number = shifted(number);
        number
    });
    both_go_right(&rt, &numbers);
}

#[test]
fn numbers_in_a_row(rt: HostRuntime) {
    both_go_right(&rt, &row_of(0, 1));
}

// The row goes through 2^64 - 1 and 0.
#[test]
fn numbers_round_the_end(rt: HostRuntime) {
    both_go_right(&rt, &row_of(0xFFFF_FFFF_FFFF_FFF0, 1));
}

#[test]
fn numbers_with_equal_low_bits(rt: HostRuntime) {
    both_go_right(&rt, &row_of(12345, 0x2_0000_0000_0000));
}

// Keys 0, 1, 2 ..: all bits but the last seven are equal.
#[test]
fn numbers_of_close_keys(rt: HostRuntime) {
    both_go_right(&rt, &row_of(0, INVERSE));
}

// Keys 2^62, 2^61 .. 2, 1, 0, 0 .., which part one level later each time: with 2 heads, 64 rows on one path.
#[test]
fn numbers_on_one_path(rt: HostRuntime) {
    let mut key = 0x8000_0000_0000_0000u64;
    let numbers = array::from_fn(|_| {
        key /= 2;
        INVERSE.wrapping_mul(key)
    });
    both_go_right(&rt, &numbers);
}

// The index over memory that is lent for one call: a closure that holds an index itself gets no proof.
fn over<const BITS: u64>(memory: &mut [u64]) -> Index<&mut [u64], BITS> {
    Index { memory }
}

// Numbers in a row take the slots in a row, until there is no room; then they go again, the last first.
fn fills_in_order<const BITS: u64>(memory: &mut [u64], room: u64) -> bool {
    (0..room).all(|n| over::<BITS>(memory).insert(n) == n.checked_add(1))
        && over::<BITS>(memory).capacity() == room
        && over::<BITS>(memory).insert(room).is_none()
        && (0..room).all(|n| over::<BITS>(memory).remove(n) == n.checked_add(1))
        && over::<BITS>(memory).count() == 0
}

#[test]
fn goods_and_shelves_fill(rt: HostRuntime) {
    let mut goods = [0u64; 131078];
    let mut shelves = [0u64; 4102];
    assert!(rt; fills_in_order::<15>(&mut goods, 32768));
    assert!(rt; fills_in_order::<10>(&mut shelves, 1024));
}

// Whether the methods find the number at the slot.
fn methods_find<M: AsSlice<u64>, const BITS: u64>(
    index: &Index<M, BITS>,
    number: u64,
    slot: u64,
) -> bool {
    index.find(number) == Some(slot) && index.number_of(slot) == number
}

// Whether there are two numbers, and room for 64.
fn methods_count<M: AsSlice<u64>, const BITS: u64>(index: &Index<M, BITS>) -> bool {
    index.capacity() == 64 && index.count() == 2
}

fn methods_insert(index: &mut Index<&mut [u64], 1>, number: u64, slot: u64) -> bool {
    index.insert(number) == Some(slot) && methods_find(index, number, slot)
}

fn methods_remove(index: &mut Index<&mut [u64], 1>, number: u64, slot: u64) -> bool {
    index.remove(number) == Some(slot) && index.find(number).is_none()
}

#[test]
fn methods(rt: HostRuntime) {
    let mut memory = [0u64; DEEP];
    let mut index = Index::<&mut [u64], 1> {
        memory: &mut memory,
    };
    assert!(rt; methods_insert(&mut index, 7, 1) && methods_insert(&mut index, 9, 2));
    assert!(rt;
        methods_remove(&mut index, 7, 1) && methods_insert(&mut index, 18446744073709551615, 1)
    );
    assert!(rt; methods_count(&index));
    let read = Index::<&[u64], 1> { memory: &memory };
    assert!(rt; methods_find(&read, 9, 2) && methods_count(&read));
}

// A region that is too short holds nothing, whatever is in it.
#[test]
fn too_short(rt: HostRuntime) {
    let mut memory = [9u64; 100];
    let mut index = Index::<&mut [u64], 15> {
        memory: &mut memory,
    };
    assert!(rt; index.insert(7).is_none());
    assert!(rt; index.find(7).is_none());
    assert!(rt; index.capacity() == 0);
}
