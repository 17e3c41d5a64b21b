ghost use Rattle.std.specs.Prelude.{◌≡◌};
ghost use Rattle.sr_resp.specs.Code.{error_text, word_text};

/// The simple strings that commands reply.
///
/// Source: RESP2 protocol specification, "Simple strings"; Redis documentation, commands PING and XGROUP CREATE.
#[derive(Clone, Copy, PartialEq, Eq)]
pub enum Word {
    Ok,
    Pong,
}

impl Word {
    /// The text after the `+`.
    pub fn text(self) -> &'static str
        ensures { result.now ≡ word_text self }
    {
        match self {
            Word::Ok => "OK",
            Word::Pong => "PONG",
        }
    }
}

/// Why a request is refused.
///
/// Source: RESP2 protocol specification, "Simple errors"; Redis documentation, the pages of the X* commands.
#[derive(Clone, Copy, PartialEq, Eq)]
pub enum ErrCode {
    /// No command has this name.
    Unknown,
    /// The command takes more words, or fewer words.
    Arity,
    /// The words do not fit the command's form.
    Syntax,
    /// A word in the place of a number is not one, or is out of range.
    Number,
    /// A word in the place of an id is not one.
    BadId,
    /// The bytes are not a request.
    Protocol,
    /// XADD was given the id 0-0.
    IdZero,
    /// XADD was given an id that is not above the last one.
    IdSmall,
    /// No id is left above the last one.
    Exhausted,
    /// The key does not exist.
    NoKey,
    /// The key or the consumer group does not exist.
    NoGroup,
    /// The consumer group already exists.
    BusyGroup,
    /// An allocation failed. Nothing was changed.
    Memory,
    /// The history cannot hold another record.
    Full,
    /// The group changed while the plan was made.
    Stale,
    /// Too many entries are stranded for one plan.
    TooMany,
}

impl ErrCode {
    /// The text after the `-`.
    pub fn text(self) -> &'static str
        ensures { result.now ≡ error_text self }
    {
        match self {
            ErrCode::Unknown => "ERR unknown command",
            ErrCode::Arity => "ERR wrong number of arguments",
            ErrCode::Syntax => "ERR syntax error",
            ErrCode::Number => "ERR value is not an integer or out of range",
            ErrCode::BadId => "ERR Invalid stream ID specified as stream command argument",
            ErrCode::Protocol => "ERR Protocol error",
            ErrCode::IdZero => "ERR The ID specified in XADD must be greater than 0-0",
            ErrCode::IdSmall => {
                "ERR The ID specified in XADD is equal or smaller than the target stream top item"
            }
            ErrCode::Exhausted => {
                "ERR The stream has exhausted the last possible ID, unable to add more items"
            }
            ErrCode::NoKey => "ERR no such key",
            ErrCode::NoGroup => "NOGROUP no such key or consumer group",
            ErrCode::BusyGroup => "BUSYGROUP Consumer Group name already exists",
            ErrCode::Memory => "OOM out of memory",
            ErrCode::Full => "OOM history is full",
            ErrCode::Stale => "STALE the group changed while the plan was made",
            ErrCode::TooMany => "TOOMANY more than 4096 stranded entries",
        }
    }
}
