//! Books, known keys and both, held to words and to sieves.
ghost use Rattle.std.specs.Prelude.{◌≡◌, ◌≤◌, true};

use model::book::Book;
use model::keys::KnownKeys;
use model::pools::{Either, Pool};
use model::sieve::{MarkChoice, MarkTest, Sieve, wanted_by, wanted_where};
use model::symbols::SymbolSet;

/// Known keys 1 and 2, end F.
const KEYS: KnownKeys = KnownKeys {
    set: SymbolSet(6),
    end: 15,
};

/// From mark 0, F leads to mark 1; from there 1 leads to mark 2, and 2 from mark 2 to mark 3.
const TABLE: [u16; 35] = [
    0, 0, 0, 0, 0, 0, 0, 0, 0, 0, 0, 0, 0, 0, 0, 1, 0, 2, 0, 0, 0, 0, 0, 0, 0, 0, 0, 0, 0, 0, 0, 0,
    0, 0, 3,
];

fn wanting(wanted: &[u8]) -> Sieve<'_> {
    Sieve {
        table: &TABLE,
        first: 0,
        wanted,
    }
}

/// The test for one mark.
#[derive(Clone, Copy)]
struct Only(u16);

impl MarkTest for Only {
    ghost means = { λ test m. m ≡ test.0 };

    fn holds(&self, m: u16) -> bool {
        m == self.0
    }
}

/// Takes one mark, and promises only that it takes none above it.
#[derive(Clone, Copy)]
struct UpTo(u16);

impl MarkChoice for UpTo {
    ghost may = { λ choice m yes. yes ≡ true → m ≤ choice.0 };

    fn takes(&self, m: u16) -> bool {
        m == self.0
    }
}

#[test]
fn a_books_bytes(rt: HostRuntime) {
    let book = Book(&[2, 1, 15, 0, 1, 16, 1]);
    assert!(rt; book.holds(&[1, 15]));
    assert!(rt; book.holds(&[]));
    assert!(rt; !book.holds(&[16]));
    assert!(rt; !book.holds(&[1]));
    assert!(rt; !book.holds(&[15]));
    assert!(rt; !Book(&[]).holds(&[]));
    assert!(rt; !Book(&[3, 1, 2]).holds(&[1, 2]));
}

#[test]
fn known_keys(rt: HostRuntime) {
    assert!(rt; KEYS.holds(&[15]));
    assert!(rt; KEYS.holds(&[1, 2, 15]));
    assert!(rt; !KEYS.holds(&[1, 2]));
    assert!(rt; !KEYS.holds(&[3, 15]));
    assert!(rt; !KEYS.holds(&[15, 15]));
    assert!(rt; !KEYS.holds(&[]));
    let none = KnownKeys {
        set: SymbolSet(65535),
        end: 16,
    };
    assert!(rt; !none.holds(&[16]));
    assert!(rt; !none.meets(wanting(&[1])));
}

#[test]
fn both(rt: HostRuntime) {
    let pool = Either(Book(&[1, 7]), KEYS);
    assert!(rt; pool.holds(&[7]));
    assert!(rt; pool.holds(&[2, 15]));
    assert!(rt; !pool.holds(&[8]));
    assert!(rt; pool.meets(wanting(&[1])));
    let nested = Either(Either(Book(&[]), KEYS), Book(&[1, 7]));
    assert!(rt; nested.holds(&[7]));
}

#[test]
fn sieves(rt: HostRuntime) {
    let book = Book(&[3, 2, 1, 15]);
    assert!(rt; book.meets(wanting(&[0, 0, 0, 1])));
    assert!(rt; !book.meets(wanting(&[1, 1, 1, 0])));
    assert!(rt; KEYS.meets(wanting(&[0, 0, 0, 1])));
    assert!(rt; KEYS.meets(wanting(&[0, 1])));
    assert!(rt; !KEYS.meets(wanting(&[0, 0, 0, 0, 1])));
    assert!(rt; KEYS.meets(wanting(&[1])));
    assert!(rt; !KEYS.meets(wanting(&[])));
    assert!(rt; !Book(&[2, 1, 15]).meets(wanting(&[1])));
}

#[test]
fn marks_of_words(rt: HostRuntime) {
    let sieve = wanting(&[0, 1]);
    assert_eq!(rt; sieve.next(1, 1), 2);
    assert_eq!(rt; sieve.next(1, 3), 0);
    assert_eq!(rt; sieve.run(&[2, 1, 15]), 3);
    assert!(rt; sieve.is_wanted(1));
    assert!(rt; !sieve.is_wanted(2));
    let wanted = wanted_where(&Only(3));
    assert!(rt; Book(&[3, 2, 1, 15]).meets(wanting(&wanted)));
    assert!(rt; !KEYS.meets(wanting(&wanted_where(&Only(4)))));
    let wanted = wanted_by(&UpTo(3));
    assert!(rt; Book(&[3, 2, 1, 15]).meets(wanting(&wanted)));
    assert!(rt; !Book(&[2, 1, 15]).meets(wanting(&wanted)));
    assert!(rt; !KEYS.meets(wanting(&wanted_by(&UpTo(4)))));
}

#[test]
fn missing_pools(rt: HostRuntime) {
    let none: Option<KnownKeys> = None;
    assert!(rt; !none.holds(&[15]));
    assert!(rt; !none.meets(wanting(&[1, 1])));
    assert!(rt; Some(KEYS).holds(&[15]));
    assert!(rt; Some(KEYS).meets(wanting(&[0, 1])));
}

#[test]
fn short_and_wild_sieves(rt: HostRuntime) {
    let empty = Sieve {
        table: &[],
        first: 2048,
        wanted: &[9],
    };
    assert!(rt; KEYS.meets(empty));
    assert!(rt; Book(&[0]).meets(empty));
    let wild = [65535; 64];
    let large = Sieve {
        table: &wild,
        first: 65535,
        wanted: &[0, 1],
    };
    assert!(rt; !KEYS.meets(large));
    assert!(rt; !Book(&[0, 1, 3]).meets(large));
    let one = Sieve { first: 1, ..large };
    assert!(rt; Book(&[0]).meets(one));
}
