//! Sieves: a table of marks that words are read through.
ghost use Rattle.std.specs.Prelude.{◌≡◌, ℕ, ◌<◌, ◌↔◌, Bool, Decides};
ghost use Rattle.model.specs.Sieves.{mark, next, run, Wanted, WantedWhere, Caught};

/// Marks are below this number.
pub const MARKS: usize = 2048;

/// The same number, in the type of a mark.
pub(crate) const MARK_COUNT: u16 = MARKS as u16;

/// A table of marks, the mark that words begin at, and which marks are wanted.
///
/// A word is read from its innermost symbol outward. From mark `m`, symbol `s` leads to the mark
/// at `16 m + s` of the table. A missing entry, and a number that is no mark, count as mark 0.
#[derive(Clone, Copy, PartialEq, Eq, Debug)]
pub struct Sieve<'a> {
    pub table: &'a [u16],
    pub first: u16,
    // Kept as bytes: any but 0 counts, and a list of bools would ask more of callers.
    pub wanted: &'a [u8],
}

fn in_range(m: u16) -> u16
    ensures { result ≡ mark m }
{
    if m < MARK_COUNT { m } else { 0 }
}

impl Sieve<'_> {
    /// The mark to which `symbol` leads from `m`.
    pub fn next(&self, m: u16, symbol: u8) -> u16
        ensures { result ≡ next self.now.table.now m symbol }
    {
        self.table
            .get(16 * usize::from(m) + usize::from(symbol))
            .map_or(0, |entry| in_range(*entry))
    }

    /// Whether `m` is a wanted mark.
    pub fn is_wanted(&self, m: u16) -> bool
        ensures { Decides result (Wanted self.now.wanted.now m) }
    {
        self.wanted
            .get(usize::from(m))
            .is_some_and(|byte| *byte != 0)
    }

    /// The mark at which `word` ends.
    pub fn run(&self, word: &[u8]) -> u16
        ensures { result ≡ run self.now.table.now (mark self.now.first) word.now }
    {
        word.iter()
            .rev()
            .fold(in_range(self.first), |m, symbol| self.next(m, *symbol))
    }

    /// Whether `word` ends at a wanted mark.
    pub fn catches(&self, word: &[u8]) -> bool
        ensures { Decides result (Caught self.now word.now) }
    {
        self.is_wanted(self.run(word))
    }
}

/// A test of marks.
pub trait MarkTest {
    // of which marks it holds
    ghost means: { Self → ℕ → Type 0 };

    /// Whether it holds of `m`.
    fn holds(&self, m: u16) -> bool
        ensures { Decides result (means self.now m) };
}

/// A sieve tests whether a mark is wanted.
impl MarkTest for Sieve<'_> {
    ghost means = { λ s. Wanted s.wanted.now };

    fn holds(&self, m: u16) -> bool {
        self.is_wanted(m)
    }
}

/// The marks of which the test holds, as a list of wanted marks.
pub fn wanted_where<T: MarkTest>(test: &T) -> [u8; MARKS]
    ensures { (m : ℕ) → m < 2048 → Wanted result m ↔ T.MarkTest.means test.now m }
{
    let mut wanted = [0; MARKS];
    for (m, byte) in wanted.iter_mut().enumerate() {
        *byte = u8::from(test.holds(m as u16));
    }
    wanted
}

/// A choice of marks, whose contract may leave its answers open; that of a `MarkTest` settles them.
pub trait MarkChoice {
    // which answers it may give of a mark
    ghost may: { Self → ℕ → Bool → Type 0 };

    /// Whether it takes `m`.
    fn takes(&self, m: u16) -> bool
        ensures { may self.now m result };
}

// Kept beside `wanted_where`: each is a loop of one line, and a choice made of a test would be longer.
/// The marks that the choice takes, as a list of wanted marks.
pub fn wanted_by<C: MarkChoice>(choice: &C) -> [u8; MARKS]
    ensures { WantedWhere (C.MarkChoice.may choice.now) result }
{
    let mut wanted = [0; MARKS];
    for (m, byte) in wanted.iter_mut().enumerate() {
        *byte = u8::from(choice.takes(m as u16));
    }
    wanted
}
