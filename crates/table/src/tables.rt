ghost use Rattle.std.specs.Prelude.{◌≡◌, ◌+◌, ◌<◌, length, replicate, IfSome, Some, None, MatchOption, slice_index_or, slice_set};
ghost use Rattle.table.specs.Cells.{has, under, place_of, first_free, sought, Within};
ghost use Rattle.table.specs.Changes.{Takes, Written, Emptied, Blank, Kept};
ghost use Rattle.table.specs.Counts.{filled, free_in, UsedKeys};
ghost use Rattle.table.specs.Order.{NextAbove};

use crate::above::least_above;
use crate::records::Record;

// Whether a cell holds a record with the key.
fn holds<R: Record>(cell: &Option<R>, key: &R::Key) -> bool
    ensures { result ≡ has R.keyed key.now cell.now }
{
    cell.as_ref().is_some_and(|record| record.has(key))
}

/// Records under their keys, in a lent slice of places.
// The cells are lent, without a heap: a table lies in its caller's memory.
// No `impl Model`: with the list of places as its value, what the lent memory holds in the end did not prove.
#[derive(Drop)]
pub struct Table<'a, R> {
    pub cells: &'a mut [Option<R>],
}

impl<'a, R: Record> Table<'a, R> {
    /// The record at a place; none where the place is free or not there.
    pub fn at(&self, place: usize) -> Option<R>
        ensures { result ≡ slice_index_or self.now.cells.now place None }
    {
        self.cells.get(place).copied().flatten()
    }

    /// The place of the key: the first that has it.
    pub fn find(&self, key: &R::Key) -> Option<usize>
        ensures is { result ≡ place_of R.keyed self.now.cells.now key.now }
        ensures within { Within self.now.cells.now result }
    {
        self.cells.iter().position(|cell| holds(cell, key))
    }

    /// The first free place.
    pub fn free(&self) -> Option<usize>
        ensures is { result ≡ first_free self.now.cells.now }
        ensures within { Within self.now.cells.now result }
    {
        self.cells.iter().position(|cell| cell.is_none())
    }

    /// The place of the key, else the first free one; none exactly where there is neither.
    pub fn seek(&self, key: &R::Key) -> Option<usize>
        ensures is { result ≡ sought R.keyed self.now.cells.now key.now }
        ensures within { Within self.now.cells.now result }
        ensures takes { MatchOption result ((place_of R.keyed self.now.cells.now key.now ≡ None) × (first_free self.now.cells.now ≡ None)) (λ i. Takes R.keyed self.now.cells.now key.now i) }
    {
        // Not by `or_else`: of a closure round `free` the check learned nothing, when it was tried.
        match self.find(key) {
            Some(place) => Some(place),
            None => self.free(),
        }
    }

    /// The record under a key.
    pub fn get(&self, key: &R::Key) -> Option<R>
        ensures { result ≡ under R.keyed self.now.cells.now key.now }
    {
        self.at(self.find(key)?)
    }

    /// The place of the least key above the last one, or of the least of all where there is no last one.
    pub fn next_above(&self, last: Option<R::Key>) -> Option<usize>
        ensures next { NextAbove R.keyed self.now.cells.now last result }
        ensures within { Within self.now.cells.now result }
    {
        let key = least_above(self.cells, last)?;
        self.find(&key)
    }

    /// Stores a record at a place; the other places stay.
    pub fn store(&mut self, place: usize, record: R)
        requires { place < length self.old.cells.now }
        ensures cells { self.new.cells.now ≡ slice_set self.old.cells.now place (Some «record») }
        ensures keys { Takes R.keyed self.old.cells.now (R.keyed.key «record») place → Written R.keyed self.old.cells.now self.new.cells.now (R.keyed.key «record») (Some «record») }
        ensures kept { Kept self.old.cells self.new.cells }
    {
        self.cells[place] = Some(record);
    }

    /// Empties a place; the other places stay.
    pub fn remove(&mut self, place: usize)
        requires { place < length self.old.cells.now }
        ensures cells { self.new.cells.now ≡ slice_set self.old.cells.now place None }
        ensures keys { Emptied R.keyed self.old.cells.now self.new.cells.now place }
        ensures kept { Kept self.old.cells self.new.cells }
    {
        self.cells[place] = None;
    }

    /// Empties every place.
    pub fn clear(&mut self)
        ensures cells { self.new.cells.now ≡ replicate (length self.old.cells.now) None }
        ensures keys { Blank R.keyed self.new.cells.now }
        ensures kept { Kept self.old.cells self.new.cells }
    {
        self.cells.fill(None);
    }

    /// How many places are free.
    pub fn free_places(&self) -> usize
        ensures is { result ≡ free_in self.now.cells.now }
        ensures rest { result + filled self.now.cells.now ≡ length self.now.cells.now }
        ensures keys { UsedKeys R.keyed self.now.cells.now (filled self.now.cells.now) }
    {
        self.cells.iter().filter(|cell| cell.is_none()).count()
    }
}
