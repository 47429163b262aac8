//! The statements of a session: their words, and the forms of their fields.

/// What a field is.
#[derive(Clone, Copy, PartialEq, Eq)]
pub(crate) enum Value {
    Serial,
    Tracks,
    Used,
    UsedTracks,
    UnitName,
    Serials,
    Base,
    Limit,
    Scratch,
    SetName,
    SetTracks,
    Cat,
    Expdt,
    Date,
    Name,
    Initiator,
    Classes,
    Turns,
    Writes,
    Job,
    Zap,
}

impl Value {
    /// What is said to be missing where the field is.
    pub(crate) fn name(self) -> &'static str {
        match self {
            Value::Serial => "the serial",
            Value::Tracks | Value::SetTracks => "the number of tracks",
            Value::Used => "USED",
            Value::UsedTracks => "the list after USED",
            Value::UnitName => "the unit's name",
            Value::Serials => "the list of serials",
            Value::Base => "the group's base",
            Value::Limit => "the limit",
            Value::Scratch => "SCRATCH",
            Value::SetName => "the data set's name",
            Value::Cat => "CAT",
            Value::Expdt => "EXPDT",
            Value::Date => "the date",
            Value::Name => "the name",
            Value::Initiator | Value::Turns => "the initiator",
            Value::Classes => "the list of classes",
            Value::Writes => "the class",
            Value::Job => "the job's number",
            Value::Zap => "the field record,offset,bytes",
        }
    }

    /// The one word that the field may be.
    pub(crate) fn word(self) -> Option<&'static str> {
        match self {
            Value::Used => Some("USED"),
            Value::Scratch => Some("SCRATCH"),
            Value::Cat => Some("CAT"),
            Value::Expdt => Some("EXPDT"),
            _ => None,
        }
    }

    /// The character that joins the field's parts, with no blank round it.
    pub(crate) fn joint(self) -> Option<u8> {
        match self {
            Value::UsedTracks | Value::Serials | Value::Zap => Some(b','),
            Value::Turns | Value::Writes => Some(b'*'),
            _ => None,
        }
    }
}

/// A statement that has a word.
pub(crate) struct Form {
    pub(crate) word: &'static str,
    pub(crate) shape: &'static str,
    pub(crate) is_configuration: bool,
    /// How many fields it has at least.
    pub(crate) needed: usize,
    pub(crate) values: &'static [Value],
    /// What S2 means of a line that is right by itself.
    pub(crate) refused: Option<&'static str>,
    /// What S3 means.
    pub(crate) twice: Option<&'static str>,
}

static FORMS: [Form; 15] = [
    Form {
        word: "VOLUME",
        shape: "./ VOLUME serial tracks [USED list]",
        is_configuration: true,
        needed: 2,
        values: &[Value::Serial, Value::Tracks, Value::Used, Value::UsedTracks],
        refused: Some("there are over 16 volumes: drop one"),
        twice: Some("a volume with this serial is configured before it: drop the second one"),
    },
    Form {
        word: "UNIT",
        shape: "./ UNIT name serial[,serial..]",
        is_configuration: true,
        needed: 2,
        values: &[Value::UnitName, Value::Serials],
        refused: Some(
            "a volume that it names is not configured before it: put its ./ VOLUME above; or there are over 65,535 units",
        ),
        twice: Some("a unit with this name is configured before it: drop the second one"),
    },
    Form {
        word: "GROUP",
        shape: "./ GROUP base limit [SCRATCH]",
        is_configuration: true,
        needed: 2,
        values: &[Value::Base, Value::Limit, Value::Scratch],
        refused: None,
        twice: Some(
            "a group with this base is configured before it, or the catalog has the base or a generation of it: drop the second one, or put the group before its sets",
        ),
    },
    Form {
        word: "SET",
        shape: "./ SET name serial tracks [CAT] [EXPDT yyyy/ddd]",
        is_configuration: true,
        needed: 3,
        values: &[
            Value::SetName,
            Value::Serial,
            Value::SetTracks,
            Value::Cat,
            Value::Expdt,
            Value::Date,
        ],
        refused: Some(
            "its volume is not configured before it or has no room for it, a line of its block is no record (80 columns, bytes 20 to 7E), its tracks hold fewer records (32 each), or its group is full",
        ),
        twice: Some(
            "the volume has a set of this name, or the catalog has the name: drop the second one, or its CAT",
        ),
    },
    Form {
        word: "PROC",
        shape: "./ PROC name",
        is_configuration: true,
        needed: 1,
        values: &[Value::Name],
        refused: None,
        twice: Some("a procedure with this name is configured before it: drop the second one"),
    },
    Form {
        word: "PROGRAM",
        shape: "./ PROGRAM name",
        is_configuration: true,
        needed: 1,
        values: &[Value::Name],
        refused: Some(
            "a line of its block is no request (GET dd, PUT dd text; the last line, and no other, CODE n or ABEND n, n 0 to 4095), or it has over 4,096 lines",
        ),
        twice: Some("a program with this name is configured before it: drop the second one"),
    },
    Form {
        word: "INIT",
        shape: "./ INIT i classes",
        is_configuration: true,
        needed: 2,
        values: &[Value::Initiator, Value::Classes],
        refused: None,
        twice: Some("an initiator with this number is configured before it: drop the second one"),
    },
    Form {
        word: "READ",
        shape: "./ READ",
        is_configuration: false,
        needed: 0,
        values: &[],
        refused: None,
        twice: None,
    },
    Form {
        word: "TURN",
        shape: "./ TURN i[*n]",
        is_configuration: false,
        needed: 1,
        values: &[Value::Turns],
        refused: None,
        twice: None,
    },
    Form {
        word: "WRITE",
        shape: "./ WRITE class[*n]",
        is_configuration: false,
        needed: 1,
        values: &[Value::Writes],
        refused: None,
        twice: None,
    },
    Form {
        word: "DEV",
        shape: "./ DEV serial",
        is_configuration: false,
        needed: 1,
        values: &[Value::Serial],
        refused: None,
        twice: None,
    },
    Form {
        word: "CANCEL",
        shape: "./ CANCEL job",
        is_configuration: false,
        needed: 1,
        values: &[Value::Job],
        refused: None,
        twice: None,
    },
    Form {
        word: "ZAP",
        shape: "./ ZAP record,offset,bytes",
        is_configuration: false,
        needed: 1,
        values: &[Value::Zap],
        refused: None,
        twice: None,
    },
    Form {
        word: "DISPLAY",
        shape: "./ DISPLAY",
        is_configuration: false,
        needed: 0,
        values: &[],
        refused: None,
        twice: None,
    },
    Form {
        word: "DATE",
        shape: "./ DATE yyyy/ddd",
        is_configuration: false,
        needed: 1,
        values: &[Value::Date],
        refused: None,
        twice: None,
    },
];

/// The statement that has this word.
pub(crate) fn form_of(word: &[u8]) -> Option<&'static Form> {
    FORMS.iter().find(|form| form.word.as_bytes() == word)
}

/// Each word of a statement.
pub(crate) fn forms() -> &'static [Form] {
    FORMS.as_slice()
}
