//! Prints an account of a log of frames, one frame in hexadecimal a line.
#![tactic(auto)]

ghost use Rattle.std.specs.Prelude.{ℕ, List, OnOk};
ghost use Rattle.framelog.specs.Logs.{Came};

mod account;
mod conditions;
mod failure;
mod report;
mod request;
mod scan;

use failure::Failure;
use frame_logs::tallies::Told;
use movements::Movements;
use request::{Account, HELP, Kind, Request};
use scan::Scan;
use std::process::ExitCode;
use std::{env, fs, io};
use tally::kind::Tally;
use tally::queues::Queues;
use tally::vehicles::Vehicles;

fn read_file<K: Tally + Told>(rt: &HostRuntime, name: &str, scan: &mut Scan) -> io::Result<()>
    ensures { OnOk result ((text : List ℕ) × Came K.kind scan.old text scan.new) }
{
    scan.read_opened::<K, _>(rt, name, fs::open(rt, name))
}

// Reads the logs that were asked for, then prints the summary.
fn print_account<K: Tally + Told>(rt: &HostRuntime, account: &Account) -> Result<(), Failure> {
    let mut scan = Scan::new(!account.summary_only);
    if account.files.is_empty() {
        scan.read_all::<K, _>(rt, "stdin", &mut rt.stdin())?;
    }
    for name in &account.files {
        read_file::<K>(rt, name.as_str(), &mut scan)?;
    }
    report::print(rt, &scan.summary)?;
    scan.whole()
}

fn run(rt: &HostRuntime) -> Result<(), Failure> {
    match request::of_words(rt.alloc(), env::args(rt)?)? {
        Request::Help => Ok(print!(rt; "{HELP}")?),
        // Picks the type of the tallies.
        Request::Account(account) => match account.kind {
            Kind::Vehicles => print_account::<Vehicles>(rt, &account),
            Kind::Queues => print_account::<Queues>(rt, &account),
            Kind::Movements => print_account::<Movements>(rt, &account),
        },
    }
}

// An `Err` from here would be printed in other words.
fn main(rt: HostRuntime) -> ExitCode {
    match run(&rt) {
        Ok(()) => ExitCode::SUCCESS,
        Err(failure) => {
            let _ = eprintln!(rt; "framelog: {failure}");
            ExitCode::FAILURE
        },
    }
}
