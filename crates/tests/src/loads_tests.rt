// The loads beside a plain row of shelves that is gone through from end to end.
use crate::random::Random;
use loads::*;
use std::cmp::Reverse;
use std::process::Abort;
use words::{read, write};

#[derive(Clone, Copy, Default)]
struct Shelf {
    // No `Option` of a load: a shelf that is not there may have one, as in the memory.
    there: bool,
    load: u64,
}

enum Change {
    Enter,
    Leave,
    TakeOne,
    AddOne,
}

// Slots at the ends of the trees, neighbours in them, and what is no slot.
const SLOTS: [u64; 13] = [
    0,
    1,
    2,
    3,
    4,
    5,
    511,
    512,
    513,
    1023,
    1024,
    1025,
    18446744073709551615,
];

fn shelf_at(row: &[Shelf], slot: u64) -> Shelf {
    row.get(slot as usize).copied().unwrap_or_default()
}

// The first shelf that is there and has the least key.
fn first_least<K: Ord + Drop, F: Fn(&Shelf) -> K + Drop>(row: &[Shelf], key: F) -> Option<u64>
    requires { F.IsAlwaysCallable key }
{
    row.iter()
        .enumerate()
        .filter(|(_, shelf)| shelf.there)
        .min_by_key(|(_, shelf)| key(shelf))
        .map(|(slot, _)| slot as u64)
}

// Half of the changes add one.
fn change_of(random: u64) -> Change {
    match (random >> 50) % 6 {
        0 => Change::Enter,
        1 => Change::Leave,
        2 => Change::TakeOne,
        _ => Change::AddOne,
    }
}

// One change of both.
fn apply(change: Change, loads: &mut Loads<&mut [u64]>, row: &mut [Shelf], slot: u64) {
    let before = shelf_at(row, slot);
    let after = match change {
        Change::Enter => {
            loads.enter(slot);
            Shelf {
                there: true,
                load: 0,
            }
        }
        Change::Leave => {
            loads.leave(slot);
            Shelf::default()
        }
        Change::TakeOne => {
            loads.take_one(slot);
            Shelf {
                load: before.load.saturating_sub(1),
                ..before
            }
        }
        Change::AddOne => {
            loads.add_one(slot);
            Shelf {
                load: before.load.saturating_add(1),
                ..before
            }
        }
    };
    if slot != 0
        && let Some(shelf) = row.get_mut(slot as usize)
    {
        *shelf = after;
    }
}

// Both give the same answers.
fn agree(rt: &impl Abort, loads: &Loads<&mut [u64]>, row: &[Shelf]) {
    assert!(rt; loads.emptiest() == first_least(row, |shelf| shelf.load));
    assert!(rt; loads.fullest() == first_least(row, |shelf| Reverse(shelf.load)));
    for slot in SLOTS {
        assert_eq!(rt; loads.load_of(slot), shelf_at(row, slot).load);
    }
}

// So many random changes, and the same answers after each.
fn run(rt: &impl Abort, memory: &mut [u64], row: &mut [Shelf], turns: usize) {
    let mut loads = Loads { memory };
    for random in Random::new(1).take(turns) {
        let slot = SLOTS[((random >> 40) % 13) as usize];
        apply(change_of(random), &mut loads, row, slot);
        agree(rt, &loads, row);
    }
}

#[test]
fn beside_a_row(rt: HostRuntime) {
    let mut memory = [0u64; 5121];
    let mut row = [Shelf::default(); 1025];
    run(&rt, &mut memory, &mut row, 4000);
}

#[test]
fn by_methods(rt: HostRuntime) {
    let mut memory = [0u64; 5121];
    let mut loads = Loads {
        memory: &mut memory[..],
    };
    assert!(rt; loads.emptiest() == None);
    loads.enter(7);
    loads.enter(1024);
    loads.enter(3);
    assert!(rt; loads.emptiest() == Some(3));
    loads.add_one(3);
    loads.add_one(3);
    loads.add_one(7);
    assert!(rt; loads.emptiest() == Some(1024));
    assert!(rt; loads.fullest() == Some(3));
    loads.take_one(3);
    assert_eq!(rt; loads.load_of(3), 1);
    loads.leave(1024);
    assert!(rt; loads.emptiest() == Some(3));
    assert!(rt; loads.fullest() == Some(3));
}

#[test]
fn no_slots(rt: HostRuntime) {
    let mut memory = [0u64; 5121];
    let mut loads = Loads {
        memory: &mut memory[..],
    };
    for slot in [0, 1025, 18446744073709551615] {
        loads.enter(slot);
        loads.add_one(slot);
    }
    assert!(rt; loads.memory.iter().all(|word| *word == 0));
}

#[test]
fn greatest_load(rt: HostRuntime) {
    let mut memory = [0u64; 5121];
    let mut loads = Loads {
        memory: &mut memory[..],
    };
    loads.enter(7);
    write(loads.memory, 7, 18446744073709551615);
    loads.add_one(7);
    assert_eq!(rt; loads.load_of(7), 18446744073709551615);
    loads.take_one(7);
    assert_eq!(rt; loads.load_of(7), 18446744073709551614);
}

#[test]
fn short_and_garbage(rt: HostRuntime) {
    let mut short = [9u64; 100];
    let mut loads = Loads {
        memory: &mut short[..],
    };
    loads.enter(5);
    loads.enter(500);
    assert!(rt; loads.emptiest() == None);
    assert_eq!(rt; loads.load_of(5), 0);
    assert_eq!(rt; loads.load_of(6), 9);
    let mut garbage = [18446744073709551615u64; 5121];
    let mut loads = Loads {
        memory: &mut garbage[..],
    };
    assert!(rt; loads.fullest() == Some(18446744073709551615));
    assert_eq!(rt; loads.load_of(0), 0);
    assert_eq!(rt; loads.load_of(1025), 0);
    loads.enter(1);
    assert!(rt; loads.emptiest() == Some(1));
    assert_eq!(rt; read(loads.memory, 2), 18446744073709551615);
}

#[test]
fn least_of_a_row(rt: HostRuntime) {
    assert!(rt; emptiest(&[]) == None);
    assert!(rt; emptiest(&[5, 3, 9, 3]) == Some(1));
    assert_eq!(rt; smaller_of(4, 9), 4);
    assert_eq!(rt; smaller_of(9, 4), 4);
}
