//! Tallies observed queue lengths, one a line, and prints the account.
#![tactic(auto)]

mod account;
mod intake;

use account::Totals;
use anyhow::anyhow;
use std::{env, io};

const HELP: &str = "survey [FILE]..: tally observed queue lengths.
Each line of a FILE, or of standard input where none is named, is one queue length:
decimal digits, at most 4294967295; spaces, tabs and carriage returns before and after are ignored.
A line that is not so is refused, named by its number, and left out of the tally.
Printed are the refused lines and the counts of each FILE, then one table of all lengths in sixteen bands:
count, share in percent and a bar beside the largest count. A number after >= is a lower bound.
The status is 1 where a FILE could not be read to its end; the others are tallied all the same.";

fn survey(rt: &HostRuntime, names: &[String]) -> io::Result<Totals> {
    let mut totals = Totals::new();
    if names.is_empty() {
        totals.add(rt, &intake::from_stdin(rt)?)?;
    }
    for name in names {
        totals.add(rt, &intake::from_file(rt, name.as_str())?)?;
    }
    totals.tell(rt)?;
    Ok(totals)
}

fn run(rt: &HostRuntime) -> anyhow::Result<()> {
    let names: Vec<String> = env::args(rt)?.skip(1).collect(rt.alloc())?;
    if names.iter().any(|name| name.as_str() == "--help") {
        println!(rt; "{HELP}")?;
        return Ok(());
    }
    let totals = survey(rt, names.as_slice())?;
    if totals.unread() > 0 {
        return Err(anyhow!("not every source could be read to its end"));
    }
    Ok(())
}

fn main(rt: HostRuntime) -> anyhow::Result<()> {
    run(&rt)
}
