//! Tables of places that are filled in order.
ghost use Rattle.std.specs.Prelude.{◌≡◌, ℕ, ◌<◌, ◌≤◌, [], ◌∷◌, ◌++◌, length, Decides, slice_set};
ghost use Rattle.std.specs.List.{AllWithin};

/// The places of a table.
// Kept as an inner struct with an array: memory is fixed, and one place at a time is lent to be written.
#[derive(Clone, Copy)]
struct Rows<T, const N: usize> {
    places: [T; N],
}

impl<T: Copy, const N: usize> Rows<T, N> {
    /// Writes an item into one place. The others stay.
    fn write(&mut self, at: usize, item: T)
        requires { at < N }
        ensures { self.new.places ≡ slice_set self.old.places at item }
    {
        let row = &mut self.places[at];
        *row = item;
    }
}

/// A table of `N` places. The first `count` have the items, in the order in which they came; the others are blank.
// Beside the kit's ArrayVec, which does not say what its unused places hold.
#[derive(Drop)]
pub(crate) struct Table<T: Copy + Default, const N: usize> {
    rows: Rows<T, N>,
    count: usize,
    ghost few: { count ≤ N },
    ghost wide: { length rows.places ≡ N },
    ghost unused: { AllWithin (λ item. ∥ T.is_default item ∥₁) rows.places count N },
}

impl<T: Copy + Default, const N: usize> Table<T, N> {
    ghost use Rattle.session.specs.Tables.{items};

    pub(crate) fn new() -> Self
        ensures { items result ≡ [] }
    {
        Table {
            rows: Rows {
                places: [T::default(); N],
            },
            count: 0,
        }
    }

    pub(crate) fn is_full(&self) -> bool
        ensures { Decides result (N ≤ length (items self.now)) }
    {
        self.count >= N
    }

    /// Puts an item into the first place that is free, and answers the number of that place.
    pub(crate) fn add(&mut self, item: T) -> usize
        requires { length (items self.old) < N }
        ensures number { result ≡ length (items self.old) }
        ensures after { items self.new ≡ items self.old ++ item ∷ [] }
    {
        let number = self.count;
        self.rows.write(number, item);
        self.count += 1;
        number
    }

    pub(crate) fn as_slice(&self) -> &[T]
        ensures { result.now ≡ items self.now }
    {
        &self.rows.places[..self.count]
    }
}
