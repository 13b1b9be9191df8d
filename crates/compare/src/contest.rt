// The machine and another rule, side by side through the steps of a file.
use crate::ours::Ours;
use crate::progress::Progress;
use crate::tally::Tally;
use crate::trouble::Trouble;
use assignments::spread;
use placing::Command;
use rules::{Jump, Remainders, Rendezvous, Ring, Rival, Rule};
use std::alloc::{AllocError, Global};
use steps::Steps;

// One pass over the steps.
#[derive(Drop)]
pub struct Contest {
    // The name of the other rule.
    pub rule: &'static str,
    pub ours: Tally,
    pub theirs: Tally,
}

// The machine beside each other rule.
pub fn contests(rt: &HostRuntime, path: &str, bytes: &[u8]) -> Result<Vec<Contest>, Trouble> {
    let heap = rt.alloc();
    let mut contests = Vec::new(heap);
    contests.push(pass::<Remainders>(rt, path, bytes)?)?;
    contests.push(pass::<Rendezvous>(rt, path, bytes)?)?;
    contests.push(pass::<Jump>(rt, path, bytes)?)?;
    contests.push(pass::<Ring>(rt, path, bytes)?)?;
    Ok(contests)
}

fn pass<R: Rule>(rt: &HostRuntime, path: &str, bytes: &[u8]) -> Result<Contest, Trouble> {
    let heap = rt.alloc();
    let mut progress = Progress::new(rt);
    let mut ours = Ours::new(heap)?;
    let mut rival = Rival::<R>::new(heap);
    let mut contest = Contest {
        rule: R::NAME,
        ours: Tally::new(heap),
        theirs: Tally::new(heap),
    };
    for (before, step) in Steps::new(bytes).enumerate() {
        progress.tell(rt, R::NAME, before);
        match step {
            Ok(command) => carry_out(heap, &mut contest, &mut ours, &mut rival, command)?,
            Err(flaw) => return Err(Trouble::Step {
                path: String::from_str(heap, path)?,
                number: before.saturating_add(1),
                flaw,
            }),
        }
    }
    progress.end(rt);
    Ok(contest)
}

// One command by both, unless the machine refuses it.
fn carry_out<R: Rule>(
    heap: Global,
    contest: &mut Contest,
    ours: &mut Ours,
    rival: &mut Rival<R>,
    command: Command,
) -> Result<(), Trouble> {
    let Some(by_ours) = ours.tell(heap, command)? else {
        return Ok(());
    };
    let by_theirs = follow(heap, rival, command)?;
    contest.ours.add(by_ours);
    contest.theirs.add(by_theirs);
    let of_shelf = matches!(command, Command::ShelfComes(_) | Command::ShelfGoes(_));
    if of_shelf && !rival.assignment().spots().is_empty() {
        contest
            .ours
            .add_at_shelf(by_ours, spread(ours.assignment(), rival.shelves()))?;
        contest
            .theirs
            .add_at_shelf(by_theirs, spread(rival.assignment(), rival.shelves()))?;
    }
    Ok(())
}

// One command by the other rule: how many goods it carried.
fn follow<R: Rule>(
    heap: Global,
    rival: &mut Rival<R>,
    command: Command,
) -> Result<u64, AllocError> {
    match command {
        Command::GoodComes(good) => {
            rival.good_comes(good)?;
            Ok(0)
        }
        Command::GoodGoes(good) => {
            rival.good_goes(good);
            Ok(0)
        }
        Command::ShelfComes(shelf) => rival.shelf_comes(heap, shelf),
        Command::ShelfGoes(shelf) => rival.shelf_goes(heap, shelf),
        Command::WhereIs(_) => Ok(0),
    }
}
