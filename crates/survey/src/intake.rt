//! Reading a source in chunks, and telling each refused line as it is met.
ghost use Rattle.std.specs.Prelude.{◌≡◌, ℕ, List, ◌++◌, ◌⊎◌, IfOk, OnOk, MatchResult};
ghost use Rattle.observations.specs.Source.{SoFar};
ghost use Rattle.survey.specs.Intake.{Reaches, CameOf, NothingRead};

use bands::count::Count;
use observations::figures::Figures;
use observations::source::{RefusedLine, Source};
use std::fs::File;
use std::io::Read;
use std::{fmt, io};

/// How many bytes are read at a time.
const CHUNK: usize = 65_536;

/// Why a source was not read to its end.
#[derive(Drop)]
pub enum Unread {
    /// Nothing of it could be read.
    Nothing(io::Error),
    /// Reading stopped at an error, which came after the line of this number.
    After(u64, io::Error),
}

impl fmt::Display for Unread {
    fn fmt<W: fmt::Write>(&self, f: &mut fmt::Formatter<W>) -> fmt::Result {
        match self {
            Unread::Nothing(error) => write!(f, "could not be read: {error}"),
            Unread::After(ended, error) => {
                let number = Count::of(*ended);
                write!(
                    f,
                    "reading stopped after line {number}: {error}; the lines up to there are counted"
                )
            }
        }
    }
}

/// What came of one source.
#[derive(Drop)]
pub struct Intake {
    pub figures: Figures,
    /// Whether it was read to its end.
    pub read: Result<(), Unread>,
}

fn tell_refused(rt: &HostRuntime, refused: &RefusedLine) -> io::Result<()> {
    let number = Count::of(refused.number);
    let fault = refused.fault;
    println!(rt; "  line {number} refused: {fault}")
}

// Takes the next bytes of a source.
fn take_chunk(rt: &HostRuntime, source: &mut Source, bytes: &[u8]) -> io::Result<()>
    ensures { OnOk result ((text : List ℕ) → SoFar text source.old → SoFar (text ++ bytes.now) source.new) }
{
    for byte in bytes {
        if let Some(refused) = source.take(*byte) {
            tell_refused(rt, &refused)?;
        }
    }
    Ok(())
}

// Ends a source of which all was read.
fn end(rt: &HostRuntime, source: &mut Source) -> io::Result<()>
    ensures { OnOk result ((text : List ℕ) → SoFar text source.old → Reaches text source.new (Ok tt)) }
{
    if let Some(refused) = source.finish() {
        tell_refused(rt, &refused)?;
    }
    Ok(())
}

// Reads a source to its end or up to an error, past interruptions (so no loop in common with the log reader, which stops at any error); an error in telling a refused line is another matter.
fn read_all<R: Read>(
    rt: &HostRuntime,
    input: &mut R,
    source: &mut Source,
) -> io::Result<Result<(), Unread>>
    ensures { IfOk result (λ read. (text : List ℕ) → SoFar text source.old → (more : List ℕ) × Reaches (text ++ more) source.new read) }
{
    let mut buffer = [0; CHUNK];
    // A loop with no end would ask for a handle that may wait for ever; this count is never reached.
    for _ in 0..u64::MAX {
        match input.read(&mut buffer) {
            Ok(0) => {
                end(rt, source)?;
                return Ok(Ok(()));
            }
            Ok(count) => take_chunk(rt, source, &buffer[..count])?,
            Err(error) if error.kind() == io::ErrorKind::Interrupted => {}
            Err(error) => return Ok(Err(Unread::After(source.ended(), error))),
        }
    }
    let error = io::Error::from(io::ErrorKind::Other);
    Ok(Err(Unread::After(source.ended(), error)))
}

fn taken_in<R: Read>(rt: &HostRuntime, input: &mut R) -> io::Result<Intake>
    ensures { IfOk result (λ intake. (text : List ℕ) × CameOf text intake) }
{
    let mut source = Source::new();
    let read = read_all(rt, input, &mut source)?;
    Ok(Intake {
        figures: source.figures(),
        read,
    })
}

/// Reads standard input.
pub fn from_stdin(rt: &HostRuntime) -> io::Result<Intake>
    ensures { IfOk result (λ intake. (text : List ℕ) × CameOf text intake) }
{
    println!(rt; "source standard input")?;
    taken_in(rt, &mut rt.stdin())
}

// Reads a file, where it could be opened.
fn of_opened(rt: &HostRuntime, opened: io::Result<File>) -> io::Result<Intake>
    ensures { IfOk result (λ intake. MatchResult opened (λ file. (text : List ℕ) × CameOf text intake) (λ error. NothingRead intake)) }
{
    match opened {
        Ok(mut file) => taken_in(rt, &mut file),
        Err(error) => Ok(Intake {
            figures: Figures::new(),
            read: Err(Unread::Nothing(error)),
        }),
    }
}

/// Reads the file of this name.
pub fn from_file(rt: &HostRuntime, name: &str) -> io::Result<Intake>
    ensures { IfOk result (λ intake. NothingRead intake ⊎ ((text : List ℕ) × CameOf text intake)) }
{
    println!(rt; "source {name}")?;
    of_opened(rt, File::open(rt, name))
}
