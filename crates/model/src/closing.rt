//! Closing the wanted marks of a sieve backward under a set of symbols.
//!
//! A pool whose words are those of another with symbols of a set put on their outside meets a sieve
//! exactly if the other pool meets it with the closed marks wanted.
ghost use Rattle.std.specs.Prelude.{◌≡◌, ℕ, ◌<◌, ◌↔◌, length, Decides};
ghost use Rattle.model.specs.Closing.{LeadsOn, Sound, Widened};
ghost use Rattle.model.specs.Keys.{Lead};
ghost use Rattle.model.specs.Sieves.{Wanted};

use crate::sieve::{MARK_COUNT, MARKS, Sieve, wanted_where};
use crate::symbols::SymbolSet;

/// A sieve, and the set of symbols under which its wanted marks are closed.
#[derive(Clone, Copy)]
struct Closing<'a> {
    sieve: Sieve<'a>,
    set: SymbolSet,
}

impl Closing<'_> {
    /// Whether some symbol of the set leads from `m` to a mark of the list.
    fn leads_on(&self, list: &[u8; MARKS], m: u16) -> bool
        ensures { Decides result (LeadsOn self.now.set.0 self.now.sieve.table.now list.now m) }
    {
        (0..16u8).any(|symbol| {
            self.set.has(symbol) && list[usize::from(self.sieve.next(m, symbol))] != 0
        })
    }

    /// One pass over the marks: takes in each from which a symbol of the set leads to one of the list. Says whether one came in.
    fn widen(&self, list: &mut [u8; MARKS]) -> bool
        requires { Sound (Lead self.now.set.0 self.now.sieve.table.now self.now.sieve.wanted.now) list.old }
        ensures { Widened self.now.set.0 self.now.sieve.table.now self.now.sieve.wanted.now list.old result list.new }
    {
        let mut changed = false;
        // Kept as an index loop: each turn reads the whole list while it writes one place.
        for m in 0..MARK_COUNT {
            let place = usize::from(m);
            if list[place] == 0 && self.leads_on(list, m) {
                list[place] = 1;
                changed = true;
            }
        }
        changed
    }
}

/// The marks from which symbols of the set, zero or more, lead to a wanted mark, as a list of wanted marks.
pub fn lead_to_wanted(sieve: Sieve<'_>, set: SymbolSet) -> [u8; MARKS]
    ensures { (m : ℕ) → m < 2048 → Wanted result m ↔ Lead set.0 sieve.entry.table.now sieve.entry.wanted.now m }
{
    let closing = Closing { sieve, set };
    let mut list = wanted_where(&sieve);
    while closing.widen(&mut list) {}
    list
}
