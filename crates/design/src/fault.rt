//! Why a file is refused, and where.
ghost use Rattle.std.specs.Prelude.{◌≡◌};
ghost use Rattle.design.specs.Faults.{number};

#[derive(Clone, Copy, PartialEq, Eq, Debug)]
pub enum Fault {
    /// Fewer bytes are left than a record's header or its length needs.
    Cut = 1,
    /// No kind of record has this tag.
    UnknownTag = 2,
    /// A record of this kind has another length.
    WrongLength = 3,
    /// A record of this kind has to stand elsewhere.
    Misplaced = 4,
    /// The file has too many bytes.
    FileTooLong = 7,
}

/// A fault, and the byte at which its record starts.
#[derive(Clone, Copy, PartialEq, Eq, Debug)]
pub struct Refusal {
    pub fault: Fault,
    pub place: usize,
}

impl Fault {
    /// The refusal for this fault of the record that starts at `place`.
    pub(crate) fn at(self, place: usize) -> Refusal
        ensures { result ≡ record { fault = self; place = place } }
    {
        Refusal { fault: self, place }
    }
}

/// The number by which a report names the fault.
impl From<Fault> for u8 {
    ghost from_gives = { λ fault n. n ≡ number fault };

    fn from(fault: Fault) -> u8 {
        fault as u8
    }
}
