// The rows of the table. The macros stand for functions, which the value of a static cannot call.
use items::Kind::{
    Among, Author, Code, Date, Dose, Kana, Number, OneWidth, PostalCode, Prefecture, SevenDigits,
    Text, Weight,
};
use items::Values::{
    DosageForm, DrugCodeKind, FeeSchedule, InformationKind, NoteKind, PrescriberSchedule, Sex,
    UsageCodeKind,
};
use items::{Item, Need};

macro_rules! always {
    ($kind:expr) => {
        Item {
            kind: $kind,
            need: Need::Always,
        }
    };
}

macro_rules! from_provider {
    ($kind:expr) => {
        Item {
            kind: $kind,
            need: Need::FromProvider,
        }
    };
}

macro_rules! optional {
    ($kind:expr) => {
        Item {
            kind: $kind,
            need: Need::Optional,
        }
    };
}

pub static RECORD_1: [Item; 10] = [
    always!(OneWidth(40)),
    always!(Among(Sex)),
    always!(Date),
    optional!(PostalCode),
    optional!(Text(800)),
    optional!(Code(13)),
    optional!(Text(800)),
    optional!(Text(20)),
    optional!(Weight),
    optional!(Kana(40)),
];

pub static RECORD_2: [Item; 3] = [
    always!(Among(NoteKind)),
    always!(Text(120)),
    always!(Author),
];

pub static RECORD_3: [Item; 4] = [
    always!(Text(120)),
    optional!(Date),
    optional!(Date),
    always!(Author),
];

pub static RECORD_4: [Item; 3] = [always!(Text(400)), optional!(Date), always!(Author)];

pub static RECORD_5: [Item; 2] = [always!(Date), always!(Author)];

pub static RECORD_11: [Item; 8] = [
    always!(Text(120)),
    from_provider!(Prefecture),
    from_provider!(Among(FeeSchedule)),
    optional!(SevenDigits),
    optional!(PostalCode),
    optional!(Text(800)),
    optional!(Code(13)),
    always!(Author),
];

pub static RECORD_15: [Item; 3] = [always!(Text(40)), optional!(Text(800)), always!(Author)];

pub static RECORD_51: [Item; 5] = [
    always!(Text(120)),
    from_provider!(Prefecture),
    from_provider!(Among(PrescriberSchedule)),
    optional!(SevenDigits),
    always!(Author),
];

pub static RECORD_55: [Item; 3] = [always!(Text(40)), optional!(Text(80)), always!(Author)];

pub static RECORD_201: [Item; 7] = [
    always!(Number),
    always!(Text(120)),
    always!(Dose),
    always!(Text(12)),
    from_provider!(Among(DrugCodeKind)),
    optional!(Code(13)),
    always!(Author),
];

pub static RECORD_281: [Item; 3] = [always!(Number), always!(Text(100)), always!(Author)];

pub static RECORD_291: [Item; 3] = [always!(Number), always!(Text(400)), always!(Author)];

pub static RECORD_301: [Item; 8] = [
    always!(Number),
    optional!(Text(100)),
    from_provider!(Number),
    from_provider!(Text(100)),
    from_provider!(Among(DosageForm)),
    from_provider!(Among(UsageCodeKind)),
    optional!(Code(16)),
    always!(Author),
];

pub static RECORD_311: [Item; 3] = [always!(Number), always!(Text(100)), always!(Author)];

pub static RECORD_391: [Item; 3] = [always!(Number), always!(Text(400)), always!(Author)];

pub static RECORD_401: [Item; 2] = [always!(Text(400)), always!(Author)];

pub static RECORD_411: [Item; 3] = [
    always!(Text(400)),
    always!(Among(InformationKind)),
    always!(Author),
];

pub static RECORD_501: [Item; 2] = [always!(Text(400)), always!(Author)];

pub static RECORD_601: [Item; 2] = [always!(Text(400)), optional!(Date)];

pub static RECORD_701: [Item; 6] = [
    always!(Text(40)),
    always!(Text(120)),
    always!(Text(800)),
    optional!(Date),
    optional!(Date),
    always!(Author),
];
