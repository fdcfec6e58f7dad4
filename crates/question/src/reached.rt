//! The marks that are reached, in their order.
ghost use Rattle.std.specs.Prelude.{◌≡◌, ◌<◌, ◌≤◌, length, slice_index, MatchOption};
ghost use Rattle.question.specs.Marks.{Placed};

use super::mark::Mark;
use super::table::{SYMBOLS, Table};
use model::sieve::MARKS;

/// All marks: first the `len` that are reached, in the order in which they were, and then the others. `place` says where
/// in `list` a mark stands.
// Kept as two arrays of fixed size: nothing is allocated, and each says where in the other a number stands.
#[derive(Drop)]
pub(crate) struct Reached {
    list: [u16; MARKS],
    place: [u16; MARKS],
    len: u16,
    ghost long: { (length list ≡ 2048) × (length place ≡ 2048) },
    ghost short: { len ≤ 2048 },
    ghost marks: { Placed place list },
    ghost places: { Placed list place },
}

impl Reached {
    ghost use Rattle.question.specs.Stable.{cells_of};
    ghost use Rattle.question.specs.Walks.{Extends, SeenIn, RowSeen};

    /// No mark is reached.
    pub(crate) fn new() -> Reached
        ensures { result.len ≡ 0 }
    {
        let mut list = [0; MARKS];
        for (i, mark) in list.iter_mut().enumerate() {
            *mark = i as u16;
        }
        Reached {
            list,
            place: list,
            len: 0,
        }
    }

    /// No mark is reached any more.
    pub(crate) fn clear(&mut self)
        ensures { self.new.len ≡ 0 }
    {
        self.len = 0;
    }

    /// The mark that stands at `i` in the list.
    pub(crate) fn get(&self, i: u16) -> Option<Mark>
        ensures { MatchOption result (self.now.len ≤ i) (λ mark. (i < self.now.len) × (mark.bits ≡ slice_index self.now.list i)) }
    {
        // Kept as a test: a closure that makes the mark would need clauses of its own for what the list is known to have.
        if i >= self.len {
            return None;
        }
        Some(Mark {
            bits: self.list[usize::from(i)],
        })
    }

    /// Adds the mark, unless it is there.
    pub(crate) fn add(&mut self, mark: Mark)
        ensures extends { Extends self.old self.new }
        ensures seen { SeenIn self.new mark.bits }
    {
        let bits = usize::from(mark.bits);
        let place = usize::from(self.place[bits]);
        let end = usize::from(self.len);
        if place < end {
            return;
        }
        let other = usize::from(self.list[end]);
        self.list.swap(place, end);
        self.place.swap(bits, other);
        self.len += 1;
    }

    /// Adds the marks that the row of `mark` leads to.
    pub(crate) fn add_row(&mut self, table: &Table<'_>, mark: Mark)
        ensures extends { Extends self.old self.new }
        ensures seen { RowSeen (cells_of table.now) self.new mark.bits }
    {
        for symbol in 0..SYMBOLS {
            self.add(table.next(mark, symbol));
        }
    }
}
