// The rules: what a shelf that comes takes from the others, and what a shelf that goes leaves to them.
use assignments::{Assignment, carried, spread};
use placing::Spot;
use rules::{Jump, Remainders, Rendezvous, Ring, Rival, Rule, mix};
use std::alloc::{AllocError, Global};
use std::process::Abort;
use std::test::Fail;

const SHELVES: u64 = 10;

const GOODS: u64 = 1000;

fn filled<R: Rule>(heap: Global) -> Result<Rival<R>, AllocError> {
    let mut rival = Rival::new(heap);
    for shelf in 0..SHELVES {
        let _ = rival.shelf_comes(heap, shelf)?;
    }
    for good in 0..GOODS {
        rival.good_comes(mix(good))?;
    }
    Ok(rival)
}

// How many goods are neither where they were nor on the one shelf.
fn strays(before: &Assignment, after: &Assignment, shelf: u64) -> usize {
    after
        .spots()
        .iter()
        .filter(|spot| spot.shelf != shelf && before.shelf_of(spot.good) != Some(spot.shelf))
        .count()
}

// A consistent rule gives goods to a shelf that comes, about its share of them, and moves no other.
fn takes_only<R: Rule>(rt: &impl Abort, heap: Global) -> Result<(), Fail> {
    let mut rival = filled::<R>(heap)?;
    let before = rival.assignment().clone()?;
    let count = rival.shelf_comes(heap, SHELVES)?;
    assert_eq!(rt; strays(&before, rival.assignment(), SHELVES), 0);
    assert!(rt; 40 < count && count < 180);
    Ok(())
}

#[test]
fn a_shelf_that_comes_only_takes(rt: HostRuntime) -> Result<(), Fail> {
    takes_only::<Rendezvous>(&rt, rt.alloc())?;
    takes_only::<Jump>(&rt, rt.alloc())?;
    takes_only::<Ring>(&rt, rt.alloc())
}

#[test]
fn remainders_move_nearly_all(rt: HostRuntime) -> Result<(), Fail> {
    let heap = rt.alloc();
    let mut rival = filled::<Remainders>(heap)?;
    let count = rival.shelf_comes(heap, SHELVES)?;
    assert!(rt; 850 < count && count < 950);
    Ok(())
}

// Where a shelf goes, only its own goods move.
fn leaves_the_others<R: Rule>(rt: &impl Abort, heap: Global) -> Result<(), Fail> {
    let mut rival = filled::<R>(heap)?;
    let before = rival.assignment().clone()?;
    let count = rival.shelf_goes(heap, 3)?;
    assert_eq!(rt; strays(rival.assignment(), &before, 3), 0);
    assert!(rt; 40 < count && count < 180);
    Ok(())
}

#[test]
fn a_shelf_that_goes_leaves_the_others(rt: HostRuntime) -> Result<(), Fail> {
    leaves_the_others::<Rendezvous>(&rt, rt.alloc())?;
    leaves_the_others::<Ring>(&rt, rt.alloc())
}

// The rule with a shelf more, and one less, and the rule itself as it was.
fn copies<R: Rule>(rt: &impl Abort, heap: Global) -> Result<(), Fail> {
    let rule = R::new(heap).with(heap, 4)?.with(heap, 7)?;
    let fewer = rule.without(heap, 4)?;
    assert_eq!(rt; rule.shelves().len(), 2);
    assert_eq!(rt; fewer.shelves().len(), 1);
    assert_eq!(rt; fewer.shelves().first().copied(), Some(7));
    Ok(())
}

#[test]
fn copies_with_a_shelf_and_without(rt: HostRuntime) -> Result<(), Fail> {
    copies::<Remainders>(&rt, rt.alloc())?;
    copies::<Rendezvous>(&rt, rt.alloc())?;
    copies::<Jump>(&rt, rt.alloc())?;
    copies::<Ring>(&rt, rt.alloc())
}

fn loses_all<R: Rule>(rt: &impl Abort, heap: Global) -> Result<(), Fail> {
    let mut rival = filled::<R>(heap)?;
    for shelf in 0..SHELVES {
        let _ = rival.shelf_goes(heap, shelf)?;
    }
    assert_eq!(rt; rival.shelves().len(), 0);
    assert_eq!(rt; rival.assignment().spots().len(), 0);
    Ok(())
}

#[test]
fn no_good_stays_without_a_shelf(rt: HostRuntime) -> Result<(), Fail> {
    loses_all::<Remainders>(&rt, rt.alloc())?;
    loses_all::<Rendezvous>(&rt, rt.alloc())?;
    loses_all::<Jump>(&rt, rt.alloc())?;
    loses_all::<Ring>(&rt, rt.alloc())
}

// A shelf that is not there goes: nothing changes, though there is one shelf alone.
fn goes_in_vain<R: Rule>(rt: &impl Abort, heap: Global) -> Result<(), Fail> {
    let mut rival = Rival::<R>::new(heap);
    let _ = rival.shelf_comes(heap, 4)?;
    rival.good_comes(1)?;
    rival.good_comes(2)?;
    assert_eq!(rt; rival.shelf_goes(heap, 7)?, 0);
    assert_eq!(rt; rival.shelves().first().copied(), Some(4));
    assert_eq!(rt; rival.assignment().shelf_of(1), Some(4));
    assert_eq!(rt; rival.assignment().shelf_of(2), Some(4));
    Ok(())
}

#[test]
fn a_shelf_that_is_not_there_goes_in_vain(rt: HostRuntime) -> Result<(), Fail> {
    goes_in_vain::<Remainders>(&rt, rt.alloc())?;
    goes_in_vain::<Rendezvous>(&rt, rt.alloc())?;
    goes_in_vain::<Jump>(&rt, rt.alloc())?;
    goes_in_vain::<Ring>(&rt, rt.alloc())
}

#[test]
fn counts_of_two_goods(rt: HostRuntime) -> Result<(), Fail> {
    let heap = rt.alloc();
    let mut before = Assignment::new(heap);
    before.put(Spot { good: 7, shelf: 1 })?;
    before.put(Spot { good: 3, shelf: 1 })?;
    let mut after = before.clone()?;
    after.put(Spot { good: 7, shelf: 2 })?;
    after.put(Spot { good: 5, shelf: 2 })?;
    assert_eq!(rt; carried(&before, &after), 1);
    assert_eq!(rt; spread(&before, &[1, 2]), 2);
    after.remove(7);
    assert_eq!(rt; carried(&before, &after), 0);
    assert_eq!(rt; after.shelf_of(7), None);
    Ok(())
}
