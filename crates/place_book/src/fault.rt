// What is found in a line that is not of the grammar.
use place_bytes::byte_at;

#[derive(Clone, Copy)]
pub enum Finding {
    ByteOrderMark,
    EmptyLine,
    SpaceBefore,
    CapitalWord,
    Comment,
    NoWord,
    NoSpace,
    CarriageReturn,
    Tab,
    NotAscii,
    Arrow,
    NoUnit,
    SmallLetter,
    CapitalMark,
    LongNumber,
    Twice,
    NoOperator,
    LongMark,
    NoComparison,
    NoNumber,
    NoBracket,
    NotOpen,
    OnePart,
    Comma,
    NotClosed,
    SpaceBehind,
    NoLineEnd,
    NoMark,
    NoDigit,
}

// What is found, and at which place of the line.
#[derive(Clone, Copy)]
pub struct Fault {
    pub at: usize,
    pub what: Finding,
}

// What a byte that fits nowhere is, or else what the place is in want of.
pub fn misfit(line: &[u8], at: usize, want: Finding) -> Fault {
    let what = match byte_at(line, at) {
        b'\r' => Finding::CarriageReturn,
        b'\t' => Finding::Tab,
        b'-' | b'=' => Finding::Arrow,
        b' '..=b'~' => want,
        _ => Finding::NotAscii,
    };
    Fault { at, what }
}
