//! Logs read as streams, line by line.
ghost use Rattle.std.specs.Prelude.{◌≡◌, ℕ, ◌-◌, ◌^◌, ◌<◌, List, [], ◌∷◌, length, ◌↔◌, true, false, IsTrue, IfSome, IsOk, IfOk, IfErr, OnOk};
ghost use Rattle.protocol.specs.Refusals.{condition_number};
ghost use Rattle.frame.specs.View.{viewed};
ghost use Rattle.frame_logs.specs.Lines.{Holds};
ghost use Rattle.frame_logs.specs.Summaries.{blank, with_no_hexadecimal, with_refusal};
ghost use Rattle.framelog.specs.Lines.{with_lawful, with_line};
ghost use Rattle.framelog.specs.Logs.{ended, open_line, with_lines, Came, CameOf};

use crate::account::{Place, print_frame};
use crate::conditions::Meaning;
use crate::failure::Failure;
use frame::reader::read;
use frame::received::Received;
use frame_logs::counts::Clocks;
use frame_logs::line::Line;
use frame_logs::standing::NoHexadecimal;
use frame_logs::summary::Summary;
use frame_logs::tallies::Told;
use protocol::records::Token;
use protocol::refusal::FrameFault;
use std::io;
use std::io::Read;
use tally::kind::Tally;

/// What the logs showed so far.
#[derive(Drop)]
pub struct Scan {
    /// Whether each line is told in full: a yes or no, with no value beside it.
    pub in_full: bool,
    /// Whether each log so far was read to its end.
    pub all_read: bool,
    pub summary: Summary,
}

/// The line of a log that is being read.
#[derive(Drop)]
struct CurrentLine<'a> {
    place: Place<'a>,
    text: Line,
}

impl Scan {
    /// Of no log.
    pub fn new(in_full: bool) -> Scan
        ensures { result ≡ record { in_full = in_full; all_read = true; summary = blank } }
    {
        Scan {
            in_full,
            all_read: true,
            summary: Summary::blank(),
        }
    }

    fn no_hexadecimal(
        &mut self,
        rt: &HostRuntime,
        place: &Place<'_>,
        why: NoHexadecimal,
    ) -> io::Result<()>
        ensures { self.new ≡ record self.old { summary = with_no_hexadecimal self.old.summary } }
    {
        self.summary.add_no_hexadecimal();
        if self.in_full {
            println!(rt; "{place}: no frame: {why}")?;
        }
        Ok(())
    }

    fn refused(&mut self, rt: &HostRuntime, place: &Place<'_>, fault: FrameFault) -> io::Result<()>
        ensures { self.new ≡ record self.old { summary = with_refusal self.old.summary (condition_number fault.condition) } }
    {
        self.summary.add_refusal(&fault.condition);
        if self.in_full {
            println!(rt;
                "{place}: refused by condition {} at byte {}: {}",
                fault.condition.number(),
                fault.place,
                Meaning { fault }
            )?;
        }
        Ok(())
    }

    fn accepted<K: Tally + Told>(
        &mut self,
        rt: &HostRuntime,
        place: &Place<'_>,
        frame: &Received<'_>,
    ) -> io::Result<()>
        ensures { self.new ≡ record self.old { summary = with_lawful self.old.summary (viewed K.kind frame.now) } }
    {
        let clocks = Clocks {
            source: frame.source_clock,
            destination: frame.destination_clock,
        };
        self.summary.add_frame(frame.sender, clocks);
        for token in frame.tokens.items::<Token<K>>() {
            self.summary.add_token(token.source, token.destination);
        }
        if self.in_full {
            print_frame::<K>(rt, place, frame)?;
        }
        Ok(())
    }

    // Accounts for a line that has ended.
    fn end_line<K: Tally + Told>(
        &mut self,
        rt: &HostRuntime,
        current: &CurrentLine<'_>,
    ) -> io::Result<()>
        ensures { (text : List ℕ) → Holds current.now.text text → self.new ≡ record self.old { summary = with_line K.kind self.old.summary text } }
    {
        match current.text.bytes() {
            Ok([]) => Ok(()),
            Ok(bytes) => match read::<K>(bytes) {
                Ok(frame) => self.accepted::<K>(rt, &current.place, &frame),
                Err(fault) => self.refused(rt, &current.place, fault),
            },
            Err(why) => self.no_hexadecimal(rt, &current.place, why),
        }
    }

    // Takes the next byte of a log: a newline ends the line.
    fn take_byte<K: Tally + Told>(
        &mut self,
        rt: &HostRuntime,
        byte: u8,
        current: &mut CurrentLine<'_>,
    ) -> io::Result<()>
        ensures scan { OnOk result ((line : List ℕ) → Holds current.old.text line → self.new ≡ record self.old { summary = with_lines K.kind self.old.summary (ended line (byte ∷ [])) }) }
        ensures line { OnOk result ((line : List ℕ) → Holds current.old.text line → Holds current.new.text (open_line line (byte ∷ []))) }
    {
        if byte == b'\n' {
            self.end_line::<K>(rt, current)?;
            current.place.line = current.place.line.saturating_add(1);
            current.text = Line::empty();
        } else {
            current.text.take(byte);
        }
        Ok(())
    }

    // Accounts for the lines that end in a chunk of a log.
    fn take_chunk<K: Tally + Told>(
        &mut self,
        rt: &HostRuntime,
        chunk: &[u8],
        current: &mut CurrentLine<'_>,
    ) -> io::Result<()>
        ensures scan { OnOk result ((line : List ℕ) → Holds current.old.text line → self.new ≡ record self.old { summary = with_lines K.kind self.old.summary (ended line chunk.now) }) }
        ensures line { OnOk result ((line : List ℕ) → Holds current.old.text line → Holds current.new.text (open_line line chunk.now)) }
    {
        for byte in chunk {
            self.take_byte::<K>(rt, *byte, current)?;
        }
        Ok(())
    }

    /// Names a log that is not read to its end. The logs after it are still read.
    pub fn pass_over(&mut self, rt: &HostRuntime, name: &str, error: &io::Error) -> io::Result<()>
        ensures { self.new ≡ record self.old { all_read = false } }
    {
        self.all_read = false;
        eprintln!(rt; "framelog: {name}: {error}")
    }

    /// Reads a log to its end, or passes over what cannot be read of it.
    pub fn read_all<K: Tally + Told, R: Read>(
        &mut self,
        rt: &HostRuntime,
        name: &str,
        log: &mut R,
    ) -> io::Result<()>
        ensures some { OnOk result ((text : List ℕ) × Came K.kind self.old text self.new) }
        ensures known { OnOk result (IfSome (R.remaining log.old) (λ text. length text < 2 ^ 64 - 1 → CameOf K.kind self.old text self.new)) }
    {
        let mut current = CurrentLine {
            place: Place { name, line: 1 },
            text: Line::empty(),
        };
        let mut buffer = [0u8; 4096];
        // As good as endless: a loop with no end would need the handle `Wait`.
        for _ in 0..u64::MAX {
            match log.read(&mut buffer) {
                Ok(0) => break,
                Ok(count) => self.take_chunk::<K>(rt, &buffer[..count], &mut current)?,
                Err(error) => return self.pass_over(rt, name, &error),
            }
        }
        self.end_line::<K>(rt, &current)
    }

    /// Reads a log that was opened, or passes over one that could not be.
    pub fn read_opened<K: Tally + Told, R: Read + Drop>(
        &mut self,
        rt: &HostRuntime,
        name: &str,
        opened: io::Result<R>,
    ) -> io::Result<()>
        ensures some { OnOk result ((text : List ℕ) × Came K.kind self.old text self.new) }
        ensures known { OnOk result (IfOk opened (λ log. IfSome (R.remaining log) (λ text. length text < 2 ^ 64 - 1 → CameOf K.kind self.old text self.new))) }
        ensures unopened { IfErr opened (λ _. self.new ≡ record self.old { all_read = false }) }
    {
        match opened {
            Ok(mut log) => self.read_all::<K, _>(rt, name, &mut log),
            Err(error) => self.pass_over(rt, name, &error),
        }
    }

    /// Whether every log was read to its end.
    pub fn whole(&self) -> Result<(), Failure>
        ensures { IsOk result ↔ IsTrue self.now.all_read }
    {
        if self.all_read {
            Ok(())
        } else {
            Err(Failure::Unread)
        }
    }
}
