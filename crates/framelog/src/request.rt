//! What the arguments ask for.
use crate::failure::Failure;
use std::alloc::Global;
use std::env::Args;

/// What `--help` prints.
pub const HELP: &str = "framelog [--summary] KIND [FILE..]\n\n\
Reads a log, one frame in hexadecimal a line, from the files or from standard\n\
input, and prints an account: each frame in words, or the condition that it\n\
fails, with the place of the byte where it fails it; then a summary.\n\n\
KIND is the tally kind of the frames: vehicles, queues or movements.\n\
Digits may be capital or small. A line with nothing on it is passed over, and\n\
any other line that is not digits in pairs is named as no frame. The numbers\n\
in front are the lines of each file, from 1.\n\n\
--summary prints the summary alone: frames read, frames refused by condition,\n\
lines that were no hexadecimal, the highest clocks of each sender, and how many\n\
frames showed a token for each source and destination. --help prints this.\n\n\
A file that cannot be read is named, the others are still read, and the status\n\
is then 1.\n";

/// The tally kind of a log.
#[derive(Clone, Copy)]
pub enum Kind {
    Vehicles,
    Queues,
    Movements,
}

/// What the arguments ask for.
#[derive(Drop)]
pub enum Request {
    /// What the program does.
    Help,
    /// An account of logs.
    Account(Account),
}

/// The account that is asked for: of these files, or where none is named of standard input.
#[derive(Drop)]
pub struct Account {
    pub kind: Kind,
    pub summary_only: bool,
    pub files: Vec<String>,
}

impl TryFrom<String> for Kind {
    type Error = Failure;

    fn try_from(word: String) -> Result<Kind, Failure> {
        match word.as_str() {
            "vehicles" => Ok(Kind::Vehicles),
            "queues" => Ok(Kind::Queues),
            "movements" => Ok(Kind::Movements),
            _ => Err(Failure::UnknownKind(word)),
        }
    }
}

/// The request that the words after the program's name make. A word that cannot be is refused beside `--help` too.
pub fn of_words(heap: Global, words: Args) -> Result<Request, Failure> {
    let mut help = false;
    let mut summary_only = false;
    let mut kind = None;
    let mut files = Vec::new(heap);
    for word in words.skip(1) {
        match word.as_str() {
            "--help" => help = true,
            "--summary" => summary_only = true,
            option if option.starts_with("--") => return Err(Failure::UnknownOption(word)),
            _ if kind.is_some() => files.push(word)?,
            _ => kind = Some(Kind::try_from(word)?),
        }
    }
    if help {
        return Ok(Request::Help);
    }
    Ok(Request::Account(Account {
        kind: kind.ok_or(Failure::NoKind)?,
        summary_only,
        files,
    }))
}
