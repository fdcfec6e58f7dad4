//! What clauses add to a table of marks, and to the mark of the empty word.
ghost use Rattle.std.specs.Prelude.{◌≡◌, ◌<◌, false, Some, None, Decides};
ghost use Rattle.question.specs.Accepts.{Stands};
ghost use Rattle.question.specs.Marks.{cell_of};
ghost use Rattle.question.specs.Stable.{cells_of, Holds, Grown, Fit, beneath, Settles, Settled, RowSettles, RowSettled, Turn, Started, Starts};

use super::clause::Clause;
use super::mark::{Mark, has};
use super::table::{SYMBOLS, Table};

/// The mark of x where a head is symbol·x: the mark below the place, or the value of the place itself.
fn beneath(symbol: Option<u8>, mark: Mark, value: Mark) -> Mark
    ensures { result.bits ≡ beneath symbol mark.bits value.bits }
{
    match symbol {
        Some(_) => mark,
        None => value,
    }
}

impl Clause {
    /// Whether the clause's body holds of word·x, where `from` is the mark of x.
    fn holds(&self, table: &Table<'_>, from: Mark) -> bool
        ensures { Decides result (Holds (cells_of table.now) self.now from.bits) }
    {
        table.read(self.word.word(), from).covers(self.body)
    }

    /// The value `old`, with the clause's head bit if its body holds at the mark `from`.
    fn grow(&self, table: &Table<'_>, from: Mark, old: Mark) -> Mark
        ensures { Grown (cells_of table.now) self.now from.bits old.bits result.bits }
    {
        if has(old.bits, self.head) || !self.holds(table, from) {
            return old;
        }
        Mark {
            bits: old.bits | 1 << self.head,
        }
    }

    /// The mark of the empty word, with what the clause adds to it.
    fn start(&self, table: &Table<'_>, old: Mark) -> Mark
        ensures { Starts self.now.symbol (Grown (cells_of table.now) self.now old.bits old.bits result.bits) (result.bits ≡ old.bits) }
    {
        match self.symbol {
            Some(_) => old,
            None => self.grow(table, old, old),
        }
    }
}

// What a clause adds is said in one `Turn` for one cell, for each cell, and for a row: it is the promise itself. The bound on
// symbols is kept as a clause, as in `table`.
impl Table<'_> {
    /// Adds what the clause gives to the cell of `mark` and `symbol`, and says whether the cell changed.
    fn raise(&mut self, clause: &Clause, mark: Mark, symbol: u8) -> bool
        requires symbol { symbol < 16 }
        requires fit { Fit clause.now.symbol (Some symbol) }
        ensures turn { Turn (Stands clause.now) self.old self.new result }
        ensures done { result ≡ false → Settles (cells_of self.new) mark.bits (Some symbol) (cell_of (cells_of self.new) mark.bits symbol) clause.now }
    {
        let old = self.next(mark, symbol);
        let new = clause.grow(self, beneath(clause.symbol, mark, old), old);
        self.set(mark, symbol, new);
        new != old
    }

    /// Adds what a clause without a symbol gives to each cell of `mark`, and says whether one changed.
    fn raise_each(&mut self, clause: &Clause, mark: Mark) -> bool
        requires { clause.now.symbol ≡ None }
        ensures turn { Turn (Stands clause.now) self.old self.new result }
        ensures done { result ≡ false → RowSettles (cells_of self.new) mark.bits clause.now }
    {
        let mut changed = false;
        for symbol in 0..SYMBOLS {
            changed |= self.raise(clause, mark, symbol);
        }
        changed
    }

    /// Adds what the clause gives to the cells of `mark`, and says whether one changed.
    fn apply(&mut self, clause: &Clause, mark: Mark) -> bool
        ensures turn { Turn (Stands clause.now) self.old self.new result }
        ensures done { result ≡ false → RowSettles (cells_of self.new) mark.bits clause.now }
    {
        match clause.symbol {
            Some(symbol) => self.raise(clause, mark, symbol),
            None => self.raise_each(clause, mark),
        }
    }

    /// Brings the cells of `mark` up to date, and says whether one changed.
    pub(crate) fn update(&mut self, clauses: &[Clause], mark: Mark) -> bool
        ensures turn { Turn (◌≡◌ clauses.now) self.old self.new result }
        ensures done { result ≡ false → RowSettled clauses.now (cells_of self.new) mark.bits }
    {
        let mut changed = false;
        for clause in clauses {
            changed |= self.apply(clause, mark);
        }
        changed
    }

    /// The mark of the empty word, with what the clauses add to it.
    pub(crate) fn start(&self, clauses: &[Clause], old: Mark) -> Mark
        ensures started { Started (◌≡◌ clauses.now) (cells_of self.now) old.bits result.bits }
        ensures done { result.bits ≡ old.bits → Settled clauses.now (cells_of self.now) 0 None old.bits }
    {
        let mut value = old;
        for clause in clauses {
            value = clause.start(self, value);
        }
        value
    }
}
