// The items of the table of records: their kinds, and when they may be empty.
// Definitions: the paper's kinds are in records, specs/Table.antt; specs/Kinds.antt says which is which.
ghost use Rattle.std.specs.Prelude.{◌≡◌};
ghost use Rattle.lists.specs.Lists.{member};
ghost use Rattle.records.specs.Table.{required};
ghost use Rattle.items.specs.Kinds.{need_of, values_of};

/// When an item may not be empty: always (`!`), in a file from provider to patient (`+`), or never (`?`).
#[derive(Clone, Copy, Debug, PartialEq, Eq)]
pub enum Need {
    Always,
    FromProvider,
    Optional,
}

impl Need {
    /// Whether the item may not be empty; provider: the file is from provider to patient.
    pub(crate) fn is_required(self, provider: bool) -> bool
        ensures { result ≡ required provider (need_of self) }
    {
        match self {
            Need::Always => true,
            Need::FromProvider => provider,
            Need::Optional => false,
        }
    }
}

/// The sets of values in braces, by what they are the values of.
#[derive(Clone, Copy, Debug, PartialEq, Eq)]
pub enum Values {
    /// A 1's second item.
    Sex,
    /// A 2's first item.
    NoteKind,
    /// An 11's third item.
    FeeSchedule,
    /// A 51's third item, which is one of an 11's too, but never a pharmacy's.
    PrescriberSchedule,
    /// A 201's fifth item.
    DrugCodeKind,
    /// A 301's fifth item.
    DosageForm,
    /// A 301's sixth item.
    UsageCodeKind,
    /// A 411's second item.
    InformationKind,
}

impl Values {
    /// Whether a number is one of the values.
    pub(crate) fn contains(self, n: u32) -> bool
        ensures { result ≡ member (values_of self) n }
    {
        match self {
            Values::Sex | Values::UsageCodeKind => matches!(n, 1 | 2),
            Values::NoteKind => matches!(n, 1 | 2 | 3 | 9),
            Values::FeeSchedule => matches!(n, 1 | 3 | 4),
            Values::PrescriberSchedule => matches!(n, 1 | 3),
            Values::DrugCodeKind => matches!(n, 1 | 2 | 3 | 4 | 6),
            Values::DosageForm => matches!(n, 1 | 2 | 3 | 4 | 5 | 6 | 7 | 9 | 10),
            Values::InformationKind => matches!(n, 30 | 31 | 99),
        }
    }
}

/// What an item may be, with the most bytes of a text or a code, or its values. The paper's letter stands beside each.
#[derive(Clone, Copy, Debug, PartialEq, Eq)]
pub enum Kind {
    /// N: any characters.
    Text(usize),
    /// U: characters of one width.
    OneWidth(usize),
    /// K: a name in kana, all in one script.
    Kana(usize),
    /// X: letters, digits, periods and hyphens.
    Code(usize),
    /// A: who wrote the record.
    Author,
    /// F: a prefecture's code.
    Prefecture,
    /// C: an institution's code of seven digits.
    SevenDigits,
    /// P: a postal code, with its hyphen or without.
    PostalCode,
    /// R: a number of one to three digits, as a prescription's.
    Number,
    /// W: a patient's weight.
    Weight,
    /// Q: a drug's dose.
    Dose,
    /// D: a date.
    Date,
    /// Braces: one of a set of values.
    Among(Values),
}

/// An item of a record: its kind, and whether it may be empty.
#[derive(Clone, Copy, Debug, PartialEq, Eq)]
pub struct Item {
    pub kind: Kind,
    pub need: Need,
}
