// Carries out a file of steps by the machine and by other rules, and prints how many goods each carries.
#![tactic(auto)]

mod contest;
mod ours;
mod picture;
mod progress;
mod table;
mod tally;
mod trouble;

use contest::contests;
use picture::picture;
use std::process::ExitCode;
use std::rt::Env;
use std::{env, fs};
use table::table;
use trouble::Trouble;

const USAGE: &str = "usage: compare STEPS
       compare --svg FILE STEPS

Carries out the steps of the file STEPS by the machine, and beside it by remainders,
rendezvous hashing, jump hashing and a ring with 128 points a shelf, and prints how many
goods each rule carried. A step has nine bytes: a kind (0 a good comes, 1 a good goes,
2 a shelf comes, 3 a shelf goes, 4 where is a good) and a number, low byte first.
Steps that the machine refuses count for no rule.

--svg FILE   also write a picture of the goods carried at each shelf that came or went";

// What the program is called for.
#[derive(Drop)]
enum Call {
    Help,
    Compare { steps: String, svg: Option<String> },
}

fn main(rt: HostRuntime) -> ExitCode {
    match run(&rt) {
        Ok(()) => ExitCode::SUCCESS,
        Err(trouble) => {
            let _ = eprintln!(rt; "compare: {trouble}");
            ExitCode::FAILURE
        }
    }
}

fn run(rt: &HostRuntime) -> Result<(), Trouble> {
    match asked(rt)? {
        Call::Help => println!(rt; "{USAGE}")?,
        Call::Compare { steps, svg } => compare(rt, steps.as_str(), svg)?,
    }
    Ok(())
}

fn asked(rt: &(impl Env + AllocGlobal)) -> Result<Call, Trouble> {
    let mut args = env::args(rt)?.skip(1);
    let first = args.next().ok_or(Trouble::WrongCall)?;
    match (first.as_str(), args.next(), args.next(), args.next()) {
        ("--help", ..) => Ok(Call::Help),
        ("--svg", Some(file), Some(steps), None) => Ok(Call::Compare {
            steps,
            svg: Some(file),
        }),
        ("--svg", ..) => Err(Trouble::WrongCall),
        (_, None, ..) => Ok(Call::Compare {
            steps: first,
            svg: None,
        }),
        _ => Err(Trouble::WrongCall),
    }
}

fn compare(rt: &HostRuntime, steps: &str, svg: Option<String>) -> Result<(), Trouble> {
    let heap = rt.alloc();
    let bytes = match fs::read(rt, steps) {
        Ok(bytes) => bytes,
        Err(error) => return Err(Trouble::File {
            path: String::from_str(heap, steps)?,
            error,
        }),
    };
    let contests = contests(rt, steps, bytes.as_slice())?;
    println!(rt; "{}", table(heap, contests.as_slice())?)?;
    if let Some(file) = svg {
        let drawing = picture(heap, contests.as_slice())?;
        if let Err(error) = fs::write(rt, file.as_str(), drawing.as_str()) {
            return Err(Trouble::File { path: file, error });
        }
    }
    Ok(())
}
