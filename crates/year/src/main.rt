// Writes a file of steps: shelves and goods that come, and then weeks in which a shelf comes or goes.
#![tactic(auto)]

mod trouble;
mod weeks;

use placing::Command;
use std::alloc::{AllocError, Global};
use std::process::ExitCode;
use std::rt::Env;
use std::{env, fs};
use steps::encode;
use trouble::Trouble;
use weeks::{Plan, year};

const USAGE: &str = "usage: year GOODS SHELVES WEEKS SEED FILE

Writes to FILE a year of steps for compare: SHELVES shelves come, then GOODS goods with
random numbers; then in each of WEEKS weeks a few goods come and go, and a shelf comes or
goes by chance, so that their number stays around SHELVES. The same SEED gives the same file.";

// What the program is called for.
#[derive(Drop)]
enum Call {
    Help,
    Write { plan: Plan, file: String },
}

fn main(rt: HostRuntime) -> ExitCode {
    match run(&rt) {
        Ok(()) => ExitCode::SUCCESS,
        Err(trouble) => {
            let _ = eprintln!(rt; "year: {trouble}");
            ExitCode::FAILURE
        }
    }
}

fn run(rt: &HostRuntime) -> Result<(), Trouble> {
    match asked(rt)? {
        Call::Help => println!(rt; "{USAGE}")?,
        Call::Write { plan, file } => write_year(rt, &plan, file)?,
    }
    Ok(())
}

fn write_year(rt: &HostRuntime, plan: &Plan, file: String) -> Result<(), Trouble> {
    let commands = year(rt.alloc(), plan)?;
    let bytes = written(rt.alloc(), commands.as_slice())?;
    if let Err(error) = fs::write(rt, file.as_str(), bytes.as_slice()) {
        return Err(Trouble::File { path: file, error });
    }
    println!(rt; "{} steps", commands.len())?;
    Ok(())
}

// The bytes of the steps, one after the other.
fn written(heap: Global, commands: &[Command]) -> Result<Vec<u8>, AllocError> {
    // Step by step: to collect byte after byte takes half as long again for the whole run.
    let mut bytes = Vec::new(heap);
    commands
        .iter()
        .try_for_each(|command| bytes.extend_from_slice(&encode(*command)))?;
    Ok(bytes)
}

fn asked(rt: &(impl Env + AllocGlobal)) -> Result<Call, Trouble> {
    let mut args = env::args(rt)?.skip(1);
    let first = args.next().ok_or(Trouble::WrongCall)?;
    if first.as_str() == "--help" {
        return Ok(Call::Help);
    }
    let plan = Plan {
        goods: number(Some(first))?,
        shelves: number(args.next())?,
        weeks: number(args.next())?,
        seed: number(args.next())?,
    };
    match (args.next(), args.next()) {
        (Some(file), None) => Ok(Call::Write { plan, file }),
        _ => Err(Trouble::WrongCall),
    }
}

fn number(word: Option<String>) -> Result<u64, Trouble> {
    word.and_then(|text| text.as_str().parse().ok())
        .ok_or(Trouble::WrongCall)
}
