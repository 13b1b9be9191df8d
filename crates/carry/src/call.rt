// What a call of the program asks for.
use std::env::Args;
use std::io;
use thiserror::Error;

#[derive(Drop)]
pub enum Call {
    Help,
    Carry(String),
}

// What is wrong with a call.
#[derive(Debug, Drop, Error)]
pub enum Misuse {
    #[error("no file of steps is given")]
    NoFile,
    #[error("unexpected argument `{0}`")]
    Unexpected(String),
    #[error("unknown option `{0}`")]
    UnknownOption(String),
    // An argument is no text, or there is no memory for it.
    #[error("the arguments can't be read: {0}")]
    Unreadable(#[from] io::Error),
}

// The arguments begin with the program's name. Each program reads its own: no two have a word in common but `--help`.
pub fn call_of(args: Args) -> Result<Call, Misuse> {
    let mut call = Err(Misuse::NoFile);
    for word in args.skip(1) {
        if word.as_str() == "--help" {
            return Ok(Call::Help);
        }
        if word.as_str().starts_with("-") {
            return Err(Misuse::UnknownOption(word));
        }
        if call.is_ok() {
            return Err(Misuse::Unexpected(word));
        }
        call = Ok(Call::Carry(word));
    }
    call
}
