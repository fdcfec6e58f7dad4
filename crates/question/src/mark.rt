//! Marks, which are sets of bits.
ghost use Rattle.std.specs.Prelude.{◌≡◌, ◌<◌, bit_and, Decides};
ghost use Rattle.question.specs.Accepts.{Has};

/// A set of bits below 11.
#[derive(Clone, Copy, PartialEq, Eq)]
pub(crate) struct Mark {
    pub bits: u16,
    ghost below: { bits < 2048 },
}

/// Whether the bit is in the set.
// Kept beside `SymbolSet`'s test, which is of symbols. The bound on bits is kept as a clause, here and in
// `feasible`: bits are counted, by loops and by `Clause`.
pub(crate) fn has(set: u16, bit: u8) -> bool
    requires { bit < 16 }
    ensures { Decides result (Has set bit) }
{
    (set >> bit) & 1 == 1
}

impl Mark {
    /// Whether each bit of `part` is in the mark.
    pub(crate) fn covers(self, part: u16) -> bool
        ensures { Decides result (bit_and self.bits part ≡ part) }
    {
        self.bits & part == part
    }
}

impl Default for Mark {
    ghost use Rattle.std.specs.Prelude.{◌≡◌};

    ghost is_default = { λ mark. mark.bits ≡ 0 };

    /// The mark of no bits.
    fn default() -> Mark {
        Mark { bits: 0 }
    }
}
