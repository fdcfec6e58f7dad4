//! Orders: a number of stages, and which of them stand at or above which.
ghost use Rattle.std.specs.Prelude.{◌≡◌, ℕ, ◌*◌, ◌^◌, ◌<◌, ◌≤◌, Decides, bit_and};
ghost use Rattle.std.proofs.Common.{sym, ◌∙◌, ap, rules};
ghost use Rattle.std.specs.Int.Bits.{and_self};
ghost use Rattle.std.proofs.lemmas.Nat.{and_comm};
ghost use Rattle.model.specs.Orders.{limit, capped, Beside};
ghost use Rattle.model.specs.Masks.{and_assoc};
ghost use Rattle.model.specs.Places.{row, column, same_place};

/// An order has at most this many stages; one that would need more has none.
pub const MOST_STAGES: u16 = 64;

/// Stages 0 to `stages − 1`, and the relation of standing at or above.
pub trait Order {
    ghost stages: { Self → ℕ };

    // above o b a: stage b stands at or above stage a
    ghost above: { Self → ℕ → ℕ → Type 0 };

    /// The number of stages.
    fn size(&self) -> u16
        ensures { result ≡ stages self.now };

    /// Whether it has the stage.
    fn has_stage(&self, stage: u8) -> bool
        ensures { Decides result (stage < stages self.now) }
    {
        u16::from(stage) < self.size()
    }

    /// Whether `b` and `a` are stages, and `b` stands at or above `a`.
    fn at_or_above(&self, b: u8, a: u8) -> bool
        ensures { Decides result ((b < stages self.now) × (a < stages self.now) × above self.now b a) };

    ghost few: { (o : Self) → stages o ≤ limit };

    ghost reflexive: { (o : Self) (a : ℕ) → a < stages o → above o a a };

    ghost antisymmetric: { (o : Self) (a b : ℕ) → a < stages o → b < stages o → above o a b → above o b a → a ≡ b };

    ghost transitive: { (o : Self) (a b c : ℕ) → a < stages o → b < stages o → c < stages o → above o c b → above o b a → above o c a };
}

fn capped_size(size: u16) -> u16
    ensures { result ≡ capped size }
{
    if size <= MOST_STAGES { size } else { 0 }
}

/// Stages in order of number.
#[derive(Clone, Copy, PartialEq, Eq, Debug)]
pub struct Ladder(pub u8);

impl Order for Ladder {
    ghost stages = { λ o. capped o.0 };

    ghost above = { λ _ b a. a ≤ b };

    ghost few = { Prim.search rules };

    ghost reflexive = { Prim.search rules };

    ghost antisymmetric = { Prim.search rules };

    ghost transitive = { Prim.search rules };

    fn size(&self) -> u16 {
        capped_size(u16::from(self.0))
    }

    fn at_or_above(&self, b: u8, a: u8) -> bool {
        self.has_stage(b) && self.has_stage(a) && a <= b
    }
}

/// Sets of so many bits. A stage stands at or above another if it has every bit of it.
#[derive(Clone, Copy, PartialEq, Eq, Debug)]
pub struct Flags(pub u8);

impl Order for Flags {
    ghost stages = { λ o. capped (2 ^ o.0) };

    ghost above = { λ _ b a. bit_and b a ≡ a };

    ghost few = { Prim.search rules };

    ghost reflexive = { λ o a _. and_self a };

    ghost antisymmetric = { λ o a b _ _ p q. sym q ∙ and_comm b a ∙ p };

    ghost transitive = { λ o a b c _ _ _ p q. ap (bit_and c) (sym q) ∙ sym (and_assoc c b a) ∙ ap (λ x. bit_and x a) p ∙ q };

    fn size(&self) -> u16 {
        if self.0 < 16 {
            capped_size(1 << self.0)
        } else {
            0
        }
    }

    fn at_or_above(&self, b: u8, a: u8) -> bool {
        self.has_stage(b) && self.has_stage(a) && b & a == a
    }
}

/// Two orders side by side. Its stages are the numbers `a × (size of the second) + b`, and both parts must stand at or above.
#[derive(Clone, Copy, PartialEq, Eq, Debug)]
pub struct Pair<A, B>(pub A, pub B);

impl<A: Order, B: Order> Order for Pair<A, B> {
    ghost stages = { λ o. capped (A.Order.stages o.0 * B.Order.stages o.1) };

    ghost above = { λ o. Beside (A.Order.above o.0) (B.Order.above o.1) (B.Order.stages o.1) };

    ghost few = { Prim.search rules };

    ghost reflexive = { λ o a h.
        let m = A.Order.stages o.0 in
        let n = B.Order.stages o.1 in
        (A.Order.reflexive o.0 _ (row m n a h), B.Order.reflexive o.1 _ (column m n a h)) };

    ghost antisymmetric = { λ o a b ha hb p q.
        let m = A.Order.stages o.0 in
        let n = B.Order.stages o.1 in
        same_place n a b
        (A.Order.antisymmetric o.0 _ _ (row m n a ha) (row m n b hb) p.0 q.0)
        (B.Order.antisymmetric o.1 _ _ (column m n a ha) (column m n b hb) p.1 q.1) };

    ghost transitive = { λ o a b c ha hb hc p q.
        let m = A.Order.stages o.0 in
        let n = B.Order.stages o.1 in (
          A.Order.transitive o.0 _ _ _ (row m n a ha) (row m n b hb) (row m n c hc) p.0 q.0,
          B.Order.transitive o.1 _ _ _ (column m n a ha) (column m n b hb) (column m n c hc) p.1 q.1,
        ) };

    fn size(&self) -> u16 {
        capped_size(self.0.size() * self.1.size())
    }

    fn at_or_above(&self, b: u8, a: u8) -> bool {
        if !self.has_stage(b) || !self.has_stage(a) {
            return false;
        }
        // An order has 64 stages at most, so the cast loses nothing.
        let width = self.1.size() as u8;
        self.0.at_or_above(b / width, a / width) && self.1.at_or_above(b % width, a % width)
    }
}
