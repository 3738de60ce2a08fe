// The format of Git's index file, defined: the definitions are in specs/, and the types that code shares with them are here.

#![tactic(auto)]

ghost use Rattle.std.specs.Prelude.{◌≡◌};
ghost use Rattle.format.specs.Refusals.{number_of, fault_at};

// Why a file or a request is refused.
#[derive(Clone, Copy, Debug, PartialEq, Eq)]
pub enum Refusal {
    TooShort = 1,
    TooLong = 2,
    Signature = 3,
    Version = 4,
    Checksum = 5,
    EntryCut = 6,
    EntryMode = 7,
    EntryFlags = 8,
    EntryName = 9,
    EntryLayout = 10,
    EntryOrder = 11,
    ExtensionCut = 12,
    ExtensionUnknown = 13,
    ExtensionTwice = 14,
    TreeMalformed = 15,
    TreeCount = 16,
    UndoMalformed = 17,
    NotThere = 18,
    WorkspaceShort = 19,
    OutputShort = 20,
    NeedsVersion3 = 21,
    Kind = 29,
}

impl Refusal {
    // The number by which documents and other languages know it.
    pub fn number(self) -> u32
        ensures { result ≡ number_of self }
    {
        self as u32
    }

    // The refusal at a place.
    pub fn at(self, place: usize) -> Fault
        ensures { result ≡ fault_at self place }
    {
        Fault {
            refusal: self,
            place: place,
        }
    }
}

// A refusal and its place: the first byte of what is refused, or 0.
#[derive(Clone, Copy, Debug, PartialEq, Eq)]
pub struct Fault {
    pub refusal: Refusal,
    pub place: usize,
}
