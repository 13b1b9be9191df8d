// Trials of the machine: what is run and not proved. A fault ends it with status 1.
#![tactic(auto)]

mod all_halls;
mod chance;
mod fault;
mod garbage;
mod long;
mod model;
mod small;
mod trial;

use chance::Numbers;
use fault::Fault;
use garbage::{Answers, garbage, spoiled};
use long::{Stop, long_run};
use placing::{Command, Refusal};
use small::{Found, Search};
use std::alloc::AllocError;
use std::process::ExitCode;
use std::{fmt, io};
use thiserror::Error;

// What went wrong is told already, or can't be.
#[derive(Debug, Drop, Error)]
enum Failed {
    #[error("a fault was told")]
    Told,
    #[error(transparent)]
    Untold(#[from] Fault),
    #[error(transparent)]
    NoMemory(#[from(alloc)] AllocError),
    #[error(transparent)]
    Unwritten(#[from] io::Error),
}

// A command as text.
#[derive(Clone, Copy)]
struct Shown(Command);

impl fmt::Display for Shown {
    fn fmt<W: fmt::Write>(&self, f: &mut fmt::Formatter<W>) -> fmt::Result {
        match self.0 {
            Command::GoodComes(good) => write!(f, "good {good} comes"),
            Command::GoodGoes(good) => write!(f, "good {good} goes"),
            Command::ShelfComes(shelf) => write!(f, "shelf {shelf} comes"),
            Command::ShelfGoes(shelf) => write!(f, "shelf {shelf} goes"),
            Command::WhereIs(good) => write!(f, "where is good {good}"),
        }
    }
}

fn print_found(rt: &HostRuntime, seed: u64, found: &Found) -> Result<(), Failed> {
    println!(rt; "seed {seed}: {}, after", found.fault)?;
    for command in &found.steps {
        println!(rt; "  {}", Shown(*command))?;
    }
    Ok(())
}

fn small_halls(rt: &HostRuntime) -> Result<(), Failed> {
    let all = Search {
        heap: rt.alloc(),
        most_goods: 32768,
    };
    for seed in 1..1001 {
        if let Some(found) = all.find(seed, 100)? {
            print_found(rt, seed, &found)?;
            return Err(Failed::Told);
        }
    }
    println!(rt; "small halls, seeds 1 to 1000, 100 steps each, beside all halls: no fault")?;
    Ok(())
}

// The list is told that two goods are all that there is room for, so that a fault has to be found.
fn planted(rt: &HostRuntime) -> Result<(), Failed> {
    println!(rt; "planted, room for two goods:")?;
    let two = Search {
        heap: rt.alloc(),
        most_goods: 2,
    };
    match two.find(1, 100)? {
        Some(found) => print_found(rt, 1, &found),
        None => Err(Failed::Told),
    }
}

fn long_halls(rt: &HostRuntime, numbers: Numbers, seed: u64) -> Result<(), Failed> {
    let tally = match long_run(rt.alloc(), numbers, seed) {
        Ok(tally) => tally,
        Err(Stop { step, fault }) => {
            println!(rt; "long run, numbers {numbers}, seed {seed}: step {step}: {fault}")?;
            return Err(Failed::Told);
        }
    };
    println!(rt;
        "long run, numbers {numbers}, seed {seed}: no fault in {} steps",
        tally.steps
    )?;
    println!(rt;
        "  at most {} goods and {} shelves; {} puts, {} done",
        tally.most_goods, tally.most_shelves, tally.puts, tally.done
    )?;
    println!(rt;
        "  refused 3: {}, 4: {}, 5: {}, 6: {}, 7: {}",
        tally.refused(Refusal::NotThere),
        tally.refused(Refusal::AlreadyThere),
        tally.refused(Refusal::NoShelf),
        tally.refused(Refusal::LastShelf),
        tally.refused(Refusal::Full)
    )?;
    Ok(())
}

// The kind of garbage, as text: no `String`, so that to name it takes no memory.
#[derive(Clone, Copy)]
struct WordsBelow(u64);

impl fmt::Display for WordsBelow {
    fn fmt<W: fmt::Write>(&self, f: &mut fmt::Formatter<W>) -> fmt::Result {
        write!(f, "words below {}", self.0)
    }
}

// Three runs of one kind of garbage, each by another seed.
fn print_garbage<F: Fn(u64) -> Result<Answers, AllocError> + Drop>(
    rt: &HostRuntime,
    what: &impl fmt::Display,
    answers: F,
) -> Result<(), Failed>
    requires { F.IsAlwaysCallable answers }
{
    for seed in 1..4 {
        println!(rt; "garbage, {what}, seed {seed}: {}", answers(seed)?)?;
    }
    Ok(())
}

fn all_trials(rt: &HostRuntime) -> Result<(), Failed> {
    small_halls(rt)?;
    planted(rt)?;
    long_halls(rt, Numbers::InARow, 1)?;
    long_halls(rt, Numbers::Random, 2)?;
    long_halls(rt, Numbers::SameLowBits, 3)?;
    long_halls(rt, Numbers::Highest, 4)?;
    let heap = rt.alloc();
    for limit in [5, 40000, u64::MAX] {
        print_garbage(rt, &WordsBelow(limit), move |seed| {
            garbage(heap, seed, limit, 3000)
        })?;
    }
    print_garbage(rt, &"spoiled step by step", move |seed| {
        spoiled(heap, seed, 100000)
    })
}

fn main(rt: HostRuntime) -> ExitCode {
    match all_trials(&rt) {
        Ok(()) => ExitCode::SUCCESS,
        Err(_) => ExitCode::FAILURE,
    }
}
