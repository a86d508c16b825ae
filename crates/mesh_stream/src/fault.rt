ghost use Rattle.std.specs.Prelude.{◌≡◌};
ghost use Rattle.mesh_stream.specs.Numbers.{cause_number, refusal_number, layer_word};

// Why a stream is at fault; the discriminant is the number of the cause.
#[derive(Clone, Copy, PartialEq, Eq, Debug)]
pub enum Cause {
    LineTooLong = 2,
    UnknownWord = 3,
    WordCount = 4,
    NotANumber = 5,
    OutOfRange = 6,
    TooManyLines = 7,
    NotRising = 8,
    TooManyLive = 9,
    CornerNotLive = 10,
    NotLive = 11,
    LeftLive = 12,
    TooManyTriangles = 13,
    TooManyOpenEdges = 14,
}

impl Cause {
    // The number under which the cause is reported: the discriminant, which only `as` reads.
    pub fn number(self) -> u8
        ensures { result ≡ cause_number self }
    {
        self as u8
    }
}

// Why a call is refused; the discriminant is the number of the refusal. A refused call takes, makes and alters nothing.
#[derive(Clone, Copy, PartialEq, Eq, Debug)]
pub enum Refusal {
    InletClosed = 1,
    SettingNotAllowed = 15,
    BufferTooSmall = 16,
}

impl Refusal {
    // The number under which the refusal is reported: the discriminant, which only `as` reads.
    pub fn number(self) -> u8
        ensures { result ≡ refusal_number self }
    {
        self as u8
    }
}

// Who names a fault.
#[derive(Clone, Copy, PartialEq, Eq, Debug)]
pub enum LayerName {
    Reader,
    Check,
    Clean,
    Clip,
    Compact,
    Renumber,
    Border,
    Report,
}

impl LayerName {
    // The word by which the layer is spelled.
    pub fn word(self) -> &'static str
        ensures { result.now ≡ layer_word self }
    {
        match self {
            LayerName::Reader => "reader",
            LayerName::Check => "check",
            LayerName::Clean => "clean",
            LayerName::Clip => "clip",
            LayerName::Compact => "compact",
            LayerName::Renumber => "renumber",
            LayerName::Border => "border",
            LayerName::Report => "report",
        }
    }
}

// A fault: who named it, why, and the place of the event or line at fault. It passes upward unaltered.
#[derive(Clone, Copy, PartialEq, Eq, Debug)]
pub struct Fault {
    pub layer: LayerName,
    pub cause: Cause,
    pub place: u32,
}
