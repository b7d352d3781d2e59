//! Why a sheet or a call is refused, each by a name; hosts are told the number that goes with it.
#![tactic(auto)]

ghost use Rattle.std.specs.Prelude.{◌≡◌};
ghost use Rattle.refusals.specs.Numbers.{sheet_number, number, fault};

/// What is wrong with a sheet that is to be compiled: 1 to 13, and 15.
#[derive(Clone, Copy, Debug, PartialEq, Eq)]
pub enum SheetRefusal {
    SheetTooShort = 1,
    SheetTooLong = 2,
    WrongVersion = 3,
    WrongLength = 4,
    TooManyNodes = 5,
    TooDeep = 6,
    MoreNodesThanSaid = 7,
    RecordOverrun = 8,
    BadIds = 9,
    NoTest = 10,
    UnknownKind = 11,
    BadTest = 12,
    LeftOver = 13,
    ProgramTooShort = 15,
}

impl SheetRefusal {
    /// The number that hosts are told.
    pub fn number(self) -> u8
        ensures { result ≡ sheet_number self }
    {
        self as u8
    }

    /// As the fault of the piece at a place.
    pub fn at(self, place: usize) -> Fault
        ensures { result ≡ fault self place }
    {
        Fault {
            refusal: self,
            place,
        }
    }
}

/// A sheet's first fault: what is wrong, and the offset of the piece that is.
#[derive(Clone, Copy, Debug, PartialEq, Eq)]
pub struct Fault {
    pub refusal: SheetRefusal,
    pub place: usize,
}

/// Why a call is refused: 20 to 31.
#[derive(Clone, Copy, Debug, PartialEq, Eq)]
pub enum Refusal {
    BadName = 20,
    BadNamespace = 21,
    TagWaits = 22,
    NoTagWaits = 23,
    BadOutlines = 24,
    ChildCountFull = 25,
    TooManyTypes = 26,
    TooManyOpen = 27,
    TooManyMatched = 28,
    BufferTooShort = 29,
    BadShape = 30,
    StoreTooShort = 31,
}

impl Refusal {
    /// The number that hosts are told.
    pub fn number(self) -> u32
        ensures { result ≡ number self }
    {
        self as u32
    }
}
