//! How much of the current item has been read: an automaton that scans each byte once.
ghost use Rattle.std.specs.Prelude.{◌≡◌, ◌<◌, ◌≤◌, if◌then◌else◌, ◌==◌, ◌-◌, length, min, IsTrue, IfSome};
ghost use Rattle.sr_resp.specs.Numbers.{NumberGoesOn, CountGoesOn, LengthGoesOn};
ghost use Rattle.sr_resp.specs.Stages.{IsStageAt, StepsTo, HasShortHeader, HasLineEnd};

/// The most digits that the number in a header may have.
const MAX_DIGITS: usize = 10;

/// The most words that a request may have.
const MAX_WORDS: usize = 4096;

/// The most bytes that a word may have.
const MAX_WORD_BYTES: usize = 1_048_576;

/// The most bytes that the words of a request may have together.
const MAX_REQUEST_BYTES: usize = 16_777_216;

/// The bytes of an empty command after its mark, if it is a null array.
const NULL_ARRAY: [u8; 4] = *b"-1\r\n";

/// Where a word stands in the bytes of its request: its first byte, and the byte after its last one.
#[derive(Clone, Copy)]
pub struct WordBounds {
    pub start: usize,
    pub end: usize,
}

/// How far the item under way, a request or an empty command, has come.
#[derive(Clone, Copy)]
pub enum Stage {
    /// Before its mark.
    Start,
    /// After its mark.
    Kind,
    /// In the text of a null array, after this many bytes of it.
    NullArray {
        read: usize,
    },
    /// In the number of words, after this many digits with this value.
    Count {
        digits: usize,
        value: usize,
    },
    /// Before the line feed after the number of words.
    CountEnd {
        count: usize,
    },
    /// Before the mark of a word. This many words follow it, and this many bytes of words may still come.
    Word {
        others: usize,
        room: usize,
    },
    /// In the number of its bytes, after this many digits with this value.
    Length {
        others: usize,
        room: usize,
        digits: usize,
        value: usize,
    },
    /// Before the line feed after that number.
    LengthEnd {
        others: usize,
        room: usize,
        len: usize,
    },
    /// In its bytes, which begin at `start`, or after the last of them. The room is that of the words after it.
    Body {
        others: usize,
        room: usize,
        start: usize,
        missing: usize,
    },
    /// Before the line feed after its bytes.
    BodyEnd {
        others: usize,
        room: usize,
    },
}

/// What some bytes lead to.
#[derive(Clone, Copy)]
pub enum Step {
    /// This stage.
    On(Stage),
    /// The end of a word's bytes, which stand at the place, and this stage.
    Word(WordBounds, Stage),
    /// The end of a request.
    Whole,
    /// The end of an empty command.
    Empty,
    /// A byte that cannot follow the ones before it.
    Bad,
}

/// What a byte does to a number.
enum Number {
    /// It has one digit more, and this value.
    Digit { digits: usize, value: usize },
    /// Its line ends.
    End,
    /// The byte cannot follow, or the number would be too large.
    Bad,
}

/// What the byte does to a number of at most 10 digits, and not above `most`.
fn in_number(most: usize, digits: usize, value: usize, byte: u8) -> Number
    requires most { most ≤ 16777216 }
    requires value { value ≤ most }
    ensures { NumberGoesOn most digits value byte result }
{
    match char::from(byte).to_digit(10) {
        Some(digit) => {
            let value = value * 10 + digit as usize;
            if digits < MAX_DIGITS && value <= most {
                Number::Digit {
                    digits: digits + 1,
                    value,
                }
            } else {
                Number::Bad
            }
        }
        None => {
            if byte == b'\r' && digits > 0 {
                Number::End
            } else {
                Number::Bad
            }
        }
    }
}

/// The step, if the byte is the one that has to come.
fn expect(expected: u8, byte: u8, step: Step) -> Step
    ensures { result ≡ (if byte == expected then step else Step.Bad) }
{
    if byte == expected { step } else { Step::Bad }
}

/// The step in the number of words.
fn in_count(digits: usize, value: usize, byte: u8) -> Step
    requires { value ≤ 4096 }
    ensures { CountGoesOn digits value byte result }
{
    match in_number(MAX_WORDS, digits, value, byte) {
        Number::Digit { digits, value } => Step::On(Stage::Count { digits, value }),
        Number::End => Step::On(Stage::CountEnd { count: value }),
        Number::Bad => Step::Bad,
    }
}

/// The step in the number of bytes of a word.
fn in_length(others: usize, room: usize, digits: usize, value: usize, byte: u8) -> Step
    requires room { room ≤ 16777216 }
    requires value { value ≤ min room 1048576 }
    ensures { LengthGoesOn others room digits value byte result }
{
    match in_number(room.min(MAX_WORD_BYTES), digits, value, byte) {
        Number::Digit { digits, value } => Step::On(Stage::Length {
            others,
            room,
            digits,
            value,
        }),
        Number::End => Step::On(Stage::LengthEnd {
            others,
            room,
            len: value,
        }),
        Number::Bad => Step::Bad,
    }
}

/// The step to the bytes of a word, which begin at `start`.
fn to_body(others: usize, room: usize, start: usize, len: usize) -> Step
    requires { len ≤ room }
    ensures { result ≡ Step.On (Stage.Body others (room - len) start len) }
{
    Step::On(Stage::Body {
        others,
        room: room - len,
        start,
        missing: len,
    })
}

/// Whether a line ends here.
fn is_line_end(item: &[u8], at: usize) -> bool
    requires { at ≤ length item.now }
    ensures { IsTrue result → HasLineEnd item.now at }
{
    item.len() - at >= 2 && item[at] == b'\r' && item[at + 1] == b'\n'
}

/// The number in the header of a word, if the header has one digit and is there to its end, and the number is within
/// the room.
fn short_header(item: &[u8], at: usize, room: usize) -> Option<usize>
    requires { at < length item.now }
    ensures { IfSome result (λ len. HasShortHeader item.now at room len) }
{
    if item.len() - at < 4 || item[at] != b'$' || !is_line_end(item, at + 2) {
        return None;
    }
    let len = char::from(item[at + 1]).to_digit(10)? as usize;
    if len <= room { Some(len) } else { None }
}

/// The step before the mark of a word: over its whole header if that is short, and otherwise over the mark.
fn at_word(item: &[u8], at: usize, others: usize, room: usize) -> (Step, usize)
    requires there { at < length item.now }
    requires room { room ≤ 16777216 }
    ensures { StepsTo item.now at (Stage.Word others room) result.1 result.0 }
{
    match short_header(item, at, room) {
        Some(len) => {
            let start = at + 4;
            (to_body(others, room, start, len), start)
        }
        None => {
            let step = Step::On(Stage::Length {
                others,
                room,
                digits: 0,
                value: 0,
            });
            (expect(b'$', item[at], step), at + 1)
        }
    }
}

/// The step in the bytes of a word: over the rest of them and the line end after them if all that is there and another
/// word follows, and otherwise over as many of them as are there, or over the carriage return after the last of them.
fn in_body(
    item: &[u8],
    at: usize,
    others: usize,
    room: usize,
    start: usize,
    missing: usize,
) -> (Step, usize)
    requires there { at < length item.now }
    requires room { room ≤ 16777216 }
    requires order { start ≤ at }
    ensures { StepsTo item.now at (Stage.Body others room start missing) result.1 result.0 }
{
    if others > 0 && missing <= item.len() - at && is_line_end(item, at + missing) {
        let end = at + missing;
        let following = Stage::Word {
            others: others - 1,
            room,
        };
        (Step::Word(WordBounds { start, end }, following), end + 2)
    } else if missing > 0 {
        let run = missing.min(item.len() - at);
        let step = Step::On(Stage::Body {
            others,
            room,
            start,
            missing: missing - run,
        });
        (step, at + run)
    } else {
        let word = WordBounds { start, end: at };
        let step = Step::Word(word, Stage::BodyEnd { others, room });
        (expect(b'\r', item[at], step), at + 1)
    }
}

impl Stage {
    /// Examines the next byte of the item, or more of them where they are there: the short header of a word, or the
    /// bytes of a word. Returns the step and the place after them.
    pub fn advance(self, item: &[u8], at: usize) -> (Step, usize)
        requires there { at < length item.now }
        requires sound { IsStageAt at self }
        ensures { StepsTo item.now at self result.1 result.0 }
    {
        let byte = item[at];
        let next = at + 1;
        match self {
            Stage::Start => (expect(b'*', byte, Step::On(Stage::Kind)), next),
            Stage::Kind => {
                if byte == b'-' {
                    (Step::On(Stage::NullArray { read: 1 }), next)
                } else {
                    (in_count(0, 0, byte), next)
                }
            }
            Stage::NullArray { read } => {
                let step = if read < 3 {
                    Step::On(Stage::NullArray { read: read + 1 })
                } else {
                    Step::Empty
                };
                (expect(NULL_ARRAY[read], byte, step), next)
            }
            Stage::Count { digits, value } => (in_count(digits, value, byte), next),
            Stage::CountEnd { count } => {
                let step = if count == 0 {
                    Step::Empty
                } else {
                    Step::On(Stage::Word {
                        others: count - 1,
                        room: MAX_REQUEST_BYTES,
                    })
                };
                (expect(b'\n', byte, step), next)
            }
            Stage::Word { others, room } => at_word(item, at, others, room),
            Stage::Length {
                others,
                room,
                digits,
                value,
            } => (in_length(others, room, digits, value, byte), next),
            Stage::LengthEnd { others, room, len } => {
                let step = to_body(others, room, next, len);
                (expect(b'\n', byte, step), next)
            }
            Stage::Body {
                others,
                room,
                start,
                missing,
            } => in_body(item, at, others, room, start, missing),
            Stage::BodyEnd { others, room } => {
                let step = if others == 0 {
                    Step::Whole
                } else {
                    Step::On(Stage::Word {
                        others: others - 1,
                        room,
                    })
                };
                (expect(b'\n', byte, step), next)
            }
        }
    }
}
