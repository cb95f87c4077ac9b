//! The summary at the end.
use crate::conditions::{CONDITIONS, subject};
use frame_logs::summary::Summary;
use protocol::limits::NODES_MAX;
use std::io;

fn print_refusals(rt: &HostRuntime, summary: &Summary) -> io::Result<()> {
    for condition in &CONDITIONS {
        let count = summary.refusals(condition);
        if count > 0 {
            println!(rt;
                "frames refused by condition {} ({}): {count}",
                condition.number(),
                subject(condition)
            )?;
        }
    }
    Ok(())
}

fn print_senders(rt: &HostRuntime, summary: &Summary) -> io::Result<()> {
    // Over the numbers themselves, here and below: they are asked for and printed.
    for sender in 1..=NODES_MAX {
        if let Some(clocks) = summary.highest_of(sender) {
            println!(rt;
                "sender {sender}: highest source clock {}, highest destination clock {}",
                clocks.source, clocks.destination
            )?;
        }
    }
    Ok(())
}

fn print_tokens(rt: &HostRuntime, summary: &Summary) -> io::Result<()> {
    for source in 1..=NODES_MAX {
        for destination in 1..=NODES_MAX {
            let count = summary.tokens_between(source, destination);
            if count > 0 {
                println!(rt; "frames with a token from {source} to {destination}: {count}")?;
            }
        }
    }
    Ok(())
}

/// Prints the summary.
pub fn print(rt: &HostRuntime, summary: &Summary) -> io::Result<()> {
    println!(rt; "frames read: {}", summary.frames)?;
    print_refusals(rt, summary)?;
    println!(rt;
        "lines that were no hexadecimal: {}",
        summary.no_hexadecimal
    )?;
    print_senders(rt, summary)?;
    print_tokens(rt, summary)
}
