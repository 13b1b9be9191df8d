// Carries out a file of steps: for each good that is put a line `6 on 30`, for each refusal `refused 5`.
#![tactic(auto)]

mod call;
mod lines;
mod run;

use call::{Call, Misuse, call_of};
use run::{Trouble, run};
use std::alloc::AllocError;
use std::io::BufWriter;
use std::process::ExitCode;
use std::rt::Env;
use std::{env, fmt, fs};

const USAGE: &str = "usage: carry STEPS";

const HELP: &str = "carry STEPS: carries out the steps of a file, in order

STEPS is a file of steps of nine bytes: a byte for the kind
  0  a good comes
  1  a good goes
  2  a shelf comes
  3  a shelf goes
  4  where is a good?
and the number of the good or the shelf in eight bytes, low byte first.

For each good that is put a line is printed, as `6 on 30`, and for each step
that is refused `refused` and why:
  3  the good or the shelf is not there
  4  it is there already
  5  a good comes, and there is no shelf
  6  the last shelf goes, and there are goods
  7  there are as many goods or shelves as there can be

carry --help prints this.";

// What went wrong, if anything, is told by now.
fn code<E: Drop>(ended: Result<(), E>) -> ExitCode {
    match ended {
        Ok(()) => ExitCode::SUCCESS,
        Err(_) => ExitCode::FAILURE,
    }
}

fn asked(rt: &(impl Env + AllocGlobal)) -> Result<Call, Misuse> {
    call_of(env::args(rt)?)
}

fn tell(rt: &HostRuntime, what: &impl fmt::Display) {
    let _ = eprintln!(rt; "carry: {what}");
}

fn tell_trouble(rt: &HostRuntime, file: &str, trouble: &Trouble) {
    tell(rt, &format_args!("{file}: {trouble}"));
}

// Trouble is told before `out` goes, since that tries once more to write what is left.
fn carry(rt: &HostRuntime, file: &str) -> Result<(), Trouble> {
    let bytes = fs::read(rt, file)
        .map_err(Trouble::Unread)
        .inspect_err(|trouble| tell_trouble(rt, file, trouble))?;
    let Ok(mut out) = BufWriter::new(rt.alloc(), rt.stdout()) else {
        tell_trouble(rt, file, &Trouble::NoMemory(AllocError));
        return Err(Trouble::NoMemory(AllocError));
    };
    run(rt.alloc(), bytes.as_slice(), &mut out).inspect_err(|trouble| tell_trouble(
        rt, file, trouble,
    ))
}

fn main(rt: HostRuntime) -> ExitCode {
    match asked(&rt) {
        Ok(Call::Help) => code(println!(rt; "{HELP}")),
        Ok(Call::Carry(file)) => code(carry(&rt, file.as_str())),
        Err(misuse) => {
            tell(&rt, &format_args!("{misuse}\n{USAGE}"));
            ExitCode::FAILURE
        }
    }
}
