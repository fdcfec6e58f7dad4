//! Decides which words the bits of a list of clauses accept, by a table of marks.
ghost use Rattle.std.specs.Prelude.{◌≡◌, ℕ, false, replicate};
ghost use Rattle.question.specs.Marks.{Saturated};
ghost use Rattle.question.specs.Walks.{Extends, SeenIn, RowSeen};
ghost use Rattle.question.specs.Stable.{cells_of, RowSettled, Turn};

use super::clause::Clause;
use super::mark::Mark;
use super::reached::Reached;
use super::table::{Cells, Table};

/// Brings the row of each mark of the list up to date, and says whether a cell changed. The list grows by the marks that
/// the rows lead to, so in the end it has every mark that can be reached.
fn walk(clauses: &[Clause], table: &mut Table<'_>, reached: &mut Reached) -> bool
    ensures turn { Turn (◌≡◌ clauses.now) table.old table.new result }
    ensures extends { Extends reached.old reached.new }
    ensures done { result ≡ false → (m : ℕ) → SeenIn reached.new m → RowSettled clauses.now (cells_of table.new) m × RowSeen (cells_of table.new) reached.new m }
{
    let mut changed = false;
    let mut visited = 0;
    // Kept as a count: the list grows while it is walked, so no iterator can borrow it.
    while let Some(mark) = reached.get(visited) {
        changed |= table.update(clauses, mark);
        reached.add_row(table, mark);
        visited += 1;
    }
    changed
}

/// Walks over a table of no bits until nothing changes. The result is the mark of the empty word.
fn run(clauses: &[Clause], table: &mut Table<'_>) -> Mark
    requires { cells_of table.old ≡ replicate 32768 0 }
    ensures same { table.new.cells.ghost_name ≡ table.old.cells.ghost_name }
    ensures saturated { Saturated clauses.now (cells_of table.new) result.bits }
{
    let mut reached = Reached::new();
    let mut first = Mark::default();
    loop {
        let old = first;
        first = table.start(clauses, old);
        reached.clear();
        reached.add(first);
        let changed = walk(clauses, table, &mut reached);
        if !changed && first == old {
            return first;
        }
    }
}

/// Fills the table, and returns the mark of the empty word. For every word of the sixteen symbols, a bit is then in the
/// word's mark exactly where it accepts the word.
pub(crate) fn saturate(clauses: &[Clause], cells: &mut Cells) -> u16
    ensures { Saturated clauses.now cells.new result }
{
    let mut table = Table::new(cells);
    run(clauses, &mut table).bits
}
