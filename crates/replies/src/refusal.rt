// The refusals of document 01's table, by its words, and where they are given.
ghost use Rattle.std.specs.Prelude.{◌≡◌};
ghost use Rattle.replies.specs.Refusals.{number_of};

/// Why a file, an ID or a list of pieces is turned away.
#[derive(Clone, Copy, Debug, PartialEq, Eq)]
pub enum Refusal {
    Large,
    LineEnd,
    Version,
    Character,
    Record,
    Piece,
    Items,
    Empty,
    Long,
    Edge,
    Form,
    Pair,
    Place,
    Missing,
    Rp,
    DateOrder,
    Id,
    NoCutting,
    Set,
    Short,
    Used,
}

impl Refusal {
    /// Its number in document 01's table.
    pub fn number(self) -> u64
        ensures { result ≡ number_of self }
    {
        match self {
            Refusal::Large => 1,
            Refusal::LineEnd => 2,
            Refusal::Version => 3,
            Refusal::Character => 4,
            Refusal::Record => 5,
            Refusal::Piece => 6,
            Refusal::Items => 7,
            Refusal::Empty => 8,
            Refusal::Long => 9,
            Refusal::Edge => 10,
            Refusal::Form => 11,
            Refusal::Pair => 12,
            Refusal::Place => 13,
            Refusal::Missing => 14,
            Refusal::Rp => 15,
            Refusal::DateOrder => 16,
            Refusal::Id => 17,
            Refusal::NoCutting => 18,
            Refusal::Set => 19,
            Refusal::Short => 20,
            Refusal::Used => 24,
        }
    }

    /// The refusal with the line that it is given for.
    pub fn at(self, line: u32) -> Refused
        ensures { result ≡ record { refusal = self; line = line } }
    {
        Refused {
            refusal: self,
            line,
        }
    }
}

/// A refusal, and the line of the file that it is given for; 0 where it is of no line.
#[derive(Clone, Copy, Debug, PartialEq, Eq)]
pub struct Refused {
    pub refusal: Refusal,
    pub line: u32,
}
