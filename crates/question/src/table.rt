//! Tables of marks, and words read through them.
ghost use Rattle.std.specs.Prelude.{◌≡◌, ℕ, ◌+◌, ◌*◌, ◌<◌, ◌≤◌, length, replicate, slice_index, slice_set};
ghost use Rattle.model.specs.Symbols.{Symbols};
ghost use Rattle.question.specs.Marks.{cell_of, read_from};

use super::mark::Mark;

/// A mark has a row of so many cells, one for each symbol.
pub(crate) const SYMBOLS: u8 = 16;

/// The cells of all marks.
pub(crate) const CELLS: usize = 32768;

/// What a table works in.
pub(crate) type Cells = [u16; CELLS];

/// A table of marks, in cells that are lent.
#[derive(Drop)]
pub(crate) struct Table<'a> {
    cells: &'a mut [u16; CELLS],
    ghost long: { 32768 ≤ length cells.now },
    ghost below: { (k : ℕ) → k < 32768 → slice_index cells.now k < 2048 },
}

/// Makes each cell 0.
pub(crate) fn clear(cells: &mut Cells)
    ensures { cells.new ≡ replicate 32768 0 }
{
    cells.fill(0);
}

/// Where the cell of the mark and the symbol is.
fn place(mark: Mark, symbol: u8) -> usize
    ensures { result ≡ 16 * mark.bits + symbol }
{
    usize::from(SYMBOLS) * usize::from(mark.bits) + usize::from(symbol)
}

impl<'a> Table<'a> {
    /// The table of no bits.
    pub(crate) fn new(cells: &'a mut Cells) -> Table<'a>
        ensures same { result.cells.ghost_name ≡ cells.entry.ghost_name }
        ensures blank { result.cells.now ≡ replicate 32768 0 }
    {
        clear(cells);
        Table { cells }
    }

    /// The mark that `symbol` leads to from `mark`.
    // Kept beside the sieve's `next` and `run`: a sieve lends the cells for reading alone, asks for a list of wanted marks, and
    // tests each entry again. The bound on symbols is kept as a clause: words are bytes, with `Symbols` as the law of pools.
    pub(crate) fn next(&self, mark: Mark, symbol: u8) -> Mark
        requires { symbol < 16 }
        ensures { result.bits ≡ cell_of self.now.cells.now mark.bits symbol }
    {
        let cells = &*self.cells;
        Mark {
            bits: cells[place(mark, symbol)],
        }
    }

    /// The mark once the word is read, last symbol first, from the mark `from`.
    pub(crate) fn read(&self, word: &[u8], from: Mark) -> Mark
        requires { Symbols word.now }
        ensures { result.bits ≡ read_from self.now.cells.now word.now from.bits }
    {
        let mut mark = from;
        // Kept as what is left, and not as an iterator: so the proof speaks of symbols, and a word that is read the other way is refused
        // by what it gives.
        let mut rest = word;
        while let [front @ .., symbol] = rest {
            mark = self.next(mark, *symbol);
            rest = front;
        }
        mark
    }

    /// Makes `to` the mark that `symbol` leads to from `mark`.
    pub(crate) fn set(&mut self, mark: Mark, symbol: u8, to: Mark)
        requires { symbol < 16 }
        ensures same { self.new.cells.ghost_name ≡ self.old.cells.ghost_name }
        ensures set { self.new.cells.now ≡ slice_set self.old.cells.now (16 * mark.bits + symbol) to.bits }
    {
        self.cells[place(mark, symbol)] = to.bits;
    }
}
