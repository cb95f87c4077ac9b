//! The account of all sources: what each came to, the table of all, and the totals.
ghost use Rattle.std.specs.Prelude.{◌≡◌, [], OnOk};
ghost use Rattle.observations.specs.Figures.{Counts};
ghost use Rattle.survey.specs.Totals.{Added};

use crate::intake::Intake;
use bands::count::Count;
use bands::table::{Row, Table};
use observations::figures::Figures;
use std::io;
use tally::queues::EDGES;

/// What all sources so far came to.
#[derive(Clone, Copy)]
pub struct Totals {
    figures: Figures,
    sources: u64,
    unread: u64,
}

// Functions, here and below, and no types that print themselves: each is told at one place, and a type would only hold a reference.
fn tell_counts(rt: &HostRuntime, figures: &Figures) -> io::Result<()> {
    println!(rt;
        "  observations taken: {}, lines refused: {}",
        Count::of(figures.taken),
        Count::of(figures.refused)
    )
}

// Padding goes by a text's length, so each part of the row is made a text first.
fn tell_row(rt: &HostRuntime, row: &Row) -> io::Result<()> {
    let bounds = row.bounds.to_string(rt.alloc())?;
    let count = row.count.to_string(rt.alloc())?;
    let share = row.share.to_string(rt.alloc())?;
    let bar = row.bar;
    println!(rt; "{bounds:>6}  {count:>12}  {share:>6} |{bar}")
}

fn tell_sum(rt: &HostRuntime, table: &Table) -> io::Result<()> {
    let count = table.total().to_string(rt.alloc())?;
    let share = table.whole_share().to_string(rt.alloc())?;
    println!(rt; " total  {count:>12}  {share:>6}")
}

fn tell_table(rt: &HostRuntime, table: &Table) -> io::Result<()> {
    println!(rt; "\nlength  observations   share")?;
    for row in (0..EDGES.len()).filter_map(|band| table.row(band)) {
        tell_row(rt, &row)?;
    }
    tell_sum(rt, table)
}

impl Totals {
    /// The totals of no source.
    pub fn new() -> Totals
        ensures { (Counts [] result.figures) × ((result.sources ≡ 0) × (result.unread ≡ 0)) }
    {
        Totals {
            figures: Figures::new(),
            sources: 0,
            unread: 0,
        }
    }

    /// Tells what came of one source, and adds it.
    pub fn add(&mut self, rt: &HostRuntime, intake: &Intake) -> io::Result<()>
        ensures { OnOk result (Added self.old intake.now self.new) }
    {
        if let Err(unread) = &intake.read {
            println!(rt; "  {unread}")?;
        }
        tell_counts(rt, &intake.figures)?;
        self.figures.join(&intake.figures);
        self.sources = self.sources.saturating_add(1);
        if intake.read.is_err() {
            self.unread = self.unread.saturating_add(1);
        }
        Ok(())
    }

    /// How many sources were not read to their end.
    pub fn unread(&self) -> u64
        ensures { result ≡ self.now.unread }
    {
        self.unread
    }

    /// Tells the table of all sources, and the totals.
    pub fn tell(&self, rt: &HostRuntime) -> io::Result<()> {
        let table = Table::of(&self.figures.tally);
        tell_table(rt, &table)?;
        let sources = Count::of(self.sources);
        let taken = Count::of(self.figures.taken);
        let refused = Count::of(self.figures.refused);
        let unread = Count::of(self.unread);
        if !(table.total().is_exact() && taken.is_exact() && refused.is_exact()) {
            println!(rt; "A number after >= is a lower bound: its counter has reached its stop.")?;
        }
        println!(rt;
            "\nsources: {sources}, observations taken: {taken}, lines refused: {refused}, sources not read to their end: {unread}"
        )
    }
}
