//! The climb that a search finds.
ghost use Rattle.std.specs.Prelude.{◌≡◌, ◌≤◌, length};

/// The numbers of at most four changing rules: the first `len` of `rules`.
// Kept as an array and a length: a verdict is copied, and the kit's ArrayVec is not `Copy`. A row is no such type either: its
// bytes are symbols, and 0 past its end.
#[derive(Clone, Copy, Debug)]
pub struct Climb {
    pub rules: [u8; 4],
    pub len: u8,
    ghost short: { len ≤ 4 },
}

impl Climb {
    ghost use Rattle.question.specs.Search.{climb_of};

    /// The numbers in order.
    pub fn as_slice(&self) -> &[u8]
        ensures value { result.now ≡ climb_of self.now }
        ensures short { length result.now ≤ 4 }
    {
        &self.rules[..usize::from(self.len)]
    }
}

/// Climbs are equal where their numbers are, whatever stands past them.
// Kept by hand: a derive would compare what stands past them.
impl PartialEq for Climb {
    ghost use Rattle.std.specs.Prelude.{nat_eq};
    ghost use Rattle.std.specs.Cmp.{on_per, partial_equiv_from_equiv};
    ghost use Rattle.std.specs.Cmp.Lexicographic.{pointwise, nat_list_eq_equiv};
    ghost use Rattle.question.specs.Search.{climb_of};

    ghost eq = { λ a b. pointwise nat_eq (climb_of a) (climb_of b) };

    ghost laws = { on_per climb_of (partial_equiv_from_equiv nat_list_eq_equiv) };

    fn eq(&self, other: &Climb) -> bool {
        self.as_slice() == other.as_slice()
    }
}

impl Eq for Climb {
    ghost use Rattle.std.specs.Cmp.{on_equiv};
    ghost use Rattle.std.specs.Cmp.Lexicographic.{nat_list_eq_equiv};
    ghost use Rattle.question.specs.Search.{climb_of};

    ghost laws = { on_equiv climb_of nat_list_eq_equiv };
}
