//! Judges the frames of the files in data/, and compares each verdict with the one that stands behind the frame.
#![tactic(auto)]

mod failure;
mod verdict;

use failure::Failure;
use movements::Movements;
use std::fs;
use std::process::ExitCode;
use tally::kind::Tally;
use tally::queues::Queues;
use tally::vehicles::Vehicles;
use verdict::judge;

/// How many frames of a file were judged, and how many verdicts were as expected.
#[derive(Clone, Copy, Default)]
struct Compared {
    frames: u64,
    as_expected: u64,
}

impl Compared {
    // Compares the verdict on a frame with what is expected, and prints a difference.
    fn add<K: Tally>(
        &mut self,
        rt: &HostRuntime,
        digits: &str,
        expected: &str,
    ) -> Result<(), Failure> {
        self.frames = self.frames.saturating_add(1);
        let found = match judge::<K>(digits.as_bytes()) {
            Ok(()) => format!(in rt.alloc(); "ok")?,
            Err(why) => format!(in rt.alloc(); "{why}")?,
        };
        if found.as_str() == expected {
            self.as_expected = self.as_expected.saturating_add(1);
        } else {
            println!(rt; "frame {}: expected {expected}, found {found}", self.frames)?;
        }
        Ok(())
    }
}

// Compares the frames of a file, and prints how many were as expected.
fn compare_file<K: Tally>(rt: &HostRuntime, name: &str) -> Result<(), Failure> {
    let text = fs::read_to_string(rt, name)?;
    let mut compared = Compared::default();
    for line in text.as_str().lines() {
        let (digits, expected) = line.split_once(" -> ").ok_or(Failure::NoVector)?;
        compared.add::<K>(rt, digits, expected)?;
    }
    println!(rt;
        "{name}: {} frames, {} as expected",
        compared.frames, compared.as_expected
    )?;
    Ok(())
}

fn run(rt: &HostRuntime) -> Result<(), Failure> {
    compare_file::<Vehicles>(rt, "01.frames")?;
    compare_file::<Queues>(rt, "02.frames")?;
    compare_file::<Movements>(rt, "03.frames")?;
    compare_file::<Movements>(rt, "lengths.frames")
}

// An `Err` from here would be printed in other words.
fn main(rt: HostRuntime) -> ExitCode {
    match run(&rt) {
        Ok(()) => ExitCode::SUCCESS,
        Err(failure) => {
            let _ = eprintln!(rt; "frame_vectors: {failure}");
            ExitCode::FAILURE
        },
    }
}
