// The contents of shelves, beside a plain list of goods and their shelves.
use crate::random::Random;
use contents::*;
use placing::Spot;
use std::process::Abort;
use std::test::Fail;

const WORDS: usize = 99332;

// The contents, and a plain list of the same goods; the newest is last.
#[derive(Drop)]
struct Both<'a> {
    contents: Contents<&'a mut [u64]>,
    spots: Vec<Spot>,
}

impl Both<'_> {
    // Whether the walk, the links and the count give the goods of the shelf and no other, the newest first.
    fn agrees(&self, shelf: u64) -> bool {
        let mut walk = self.contents.walk(shelf);
        let mut link = self.contents.first(shelf);
        for spot in self.spots.iter().rev().filter(|spot| spot.shelf == shelf) {
            if walk.next() != Some(spot.good) || link != Some(spot.good) {
                return false;
            }
            link = self.contents.next(spot.good);
        }
        let count = self.spots.iter().filter(|spot| spot.shelf == shelf).count();
        walk.next() == None && link == None && self.contents.count(shelf) == count as u64
    }

    // Takes the good from its shelf, or puts it on this one; then compares.
    fn turn(&mut self, rt: &impl Abort, shelf: u64, good: u64) -> Result<(), Fail> {
        if let Some(i) = self.spots.iter().position(|spot| spot.good == good) {
            let spot = self.spots.remove(i);
            assert!(rt; self.contents.shelf_of(good) == Some(spot.shelf));
            self.contents.remove(good);
            assert!(rt; self.contents.shelf_of(good) == None);
            assert!(rt; self.agrees(spot.shelf));
        } else {
            assert!(rt; self.contents.shelf_of(good) == None);
            self.contents.add(shelf, good);
            self.spots.push(Spot { shelf, good })?;
            assert!(rt; self.contents.shelf_of(good) == Some(shelf));
            assert!(rt; self.contents.first(shelf) == Some(good));
            assert!(rt; self.agrees(shelf));
        }
        Ok(())
    }
}

#[test]
fn random_turns(rt: HostRuntime) -> Result<(), Fail> {
    let mut memory = [0u64; WORDS];
    let shelves = [1u64, 2, 3, 511, 1023, 1024];
    let mut both = Both {
        contents: Contents {
            memory: &mut memory[..],
        },
        spots: Vec::new(rt.alloc()),
    };
    for random in Random::new(20261117).take(4000) {
        let shelf = shelves[(random >> 61) as usize % 6];
        let good = 32768 - (random >> 32) % 40 * 800;
        both.turn(&rt, shelf, good)?;
    }
    Ok(())
}

// From a shelf of four goods goes the last, then the middle one, the first and the only one.
#[test]
fn takes_from_each_end(rt: HostRuntime) -> Result<(), Fail> {
    let mut memory = [0u64; WORDS];
    let mut both = Both {
        contents: Contents {
            memory: &mut memory[..],
        },
        spots: Vec::new(rt.alloc()),
    };
    for good in [1u64, 2, 3, 4, 1, 3, 4, 2] {
        both.turn(&rt, 7, good)?;
    }
    assert!(rt; both.spots.is_empty());
    Ok(())
}

// Tries to put the good on the shelf, and takes it away again; there is such a pair, or nothing is changed.
fn tries(rt: &impl Abort, contents: &mut Contents<&mut [u64]>, shelf: u64, good: u64, there: bool) {
    contents.add(shelf, good);
    assert!(rt; (contents.shelf_of(good) == Some(shelf)) == there);
    assert!(rt; contents.count(shelf) == there as u64);
    contents.remove(good);
    assert!(rt; contents.shelf_of(good) == None && contents.count(shelf) == 0);
}

// The slots at the edges, as shelves and as goods.
fn edges(rt: &impl Abort, memory: &mut [u64]) {
    let slots = [0, 1, 1024, 1025, 32768, 32769, u64::MAX];
    let mut contents = Contents { memory };
    for shelf in slots {
        for good in slots {
            let there = (1..=1024).contains(&shelf) && (1..=32768).contains(&good);
            tries(rt, &mut contents, shelf, good, there);
        }
    }
    assert!(rt; contents.memory.iter().all(|word| *word == 0));
}

#[test]
fn slots_at_the_edges(rt: HostRuntime) {
    let mut memory = [0u64; WORDS];
    edges(&rt, &mut memory);
}

#[test]
fn short_and_garbage(rt: HostRuntime) {
    let mut short = [5u64; 1027];
    let mut contents = Contents {
        memory: &mut short[..],
    };
    contents.add(5, 1);
    contents.remove(1);
    assert!(rt; contents.first(5) == None && contents.walk(5).count() == 0);
    assert!(rt; short == [5u64; 1027]);
    let garbage = [5u64; 1100];
    let contents = Contents {
        memory: &garbage[..],
    };
    assert!(rt; contents.shelf_of(5) == Some(5) && contents.next(5) == Some(5));
    // A walk ends on every memory.
    assert!(rt; contents.walk(5).count() == 25 && contents.count(5) == 25);
}
