// The lines of a log (02, item 2): one line, read at a position, and the reader that holds the log it
// was lent and how far it has come.
#![tactic(auto)]

ghost use Rattle.std.specs.Prelude.{◌≡◌, ◌<◌, length};
ghost use Rattle.reading.specs.LogReading.{field_at, stroke_at};
ghost use Rattle.text_numerals.specs.Numerals.{numeral_told};
ghost use Rattle.log_lines.specs.Lines.{ended, line_told, LineEnds};

use logic::Tick;
use reading::Stroke;
use text_numerals::Number;

// The most digits of a tick, and the largest tick.
const TICK_DIGITS: usize = 10;

const MOST_TICK: usize = 4294967295;

// A line that was read, and the position behind it.
#[derive(Clone, Copy)]
pub struct LogLine {
    pub stroke: Stroke,
    pub next: usize,
}

// A number that was read, with this byte behind it.
fn ended(log: &[u8], number: Number, end: u8) -> Option<Number>
    requires { number.next < length log.now }
    ensures { result ≡ ended log.now number end }
{
    let Number { said, next } = number;
    if log[next] != end {
        return None;
    }
    Some(Number {
        said,
        next: next + 1,
    })
}

// The tick at a position, and the space behind it.
fn tick_at(log: &[u8], at: usize) -> Option<Number>
    requires { LineEnds log.now at }
    ensures { result ≡ numeral_told (field_at 10 32 log.now at) }
{
    ended(
        log,
        text_numerals::numeral_inside(log, at, TICK_DIGITS)?,
        b' ',
    )
}

// The action at a position, and byte 10 behind it.
fn action_at(log: &[u8], at: usize) -> Option<Number>
    requires { LineEnds log.now at }
    ensures { result ≡ numeral_told (field_at 2 10 log.now at) }
{
    ended(log, text_numerals::short_numeral(log, at)?, b'\n')
}

// The line at a position: a tick, a space, an action, and byte 10.
pub fn line_at(log: &[u8], at: usize) -> Option<LogLine>
    requires { LineEnds log.now at }
    ensures { result ≡ line_told (stroke_at log.now at) }
{
    let tick = tick_at(log, at)?;
    if MOST_TICK < tick.said {
        return None;
    }
    let action = action_at(log, tick.next)?;
    Some(LogLine {
        stroke: Stroke {
            tick: Tick(tick.said as u64),
            action: action.said,
        },
        next: action.next,
    })
}

// A log that was lent, and how far it has been read.
#[derive(Clone, Copy)]
pub struct LogReader<'a> {
    pub log: &'a [u8],
    pub at: usize,
}

impl<'a> LogReader<'a> {
    // A reader that has come so far.
    pub fn resumed(log: &'a [u8], at: usize) -> LogReader<'a>
        ensures { (result.log ≡ log.entry) × (result.at ≡ at) }
    {
        LogReader { log, at }
    }

    // The line that the reader has come to.
    pub fn line(self) -> Option<LogLine>
        requires { LineEnds self.log.now self.at }
        ensures { result ≡ line_told (stroke_at self.entry.log.now self.entry.at) }
    {
        line_at(self.log, self.at)
    }

    // The reader behind a line.
    pub fn behind(self, next: usize) -> LogReader<'a>
        ensures { (result.log ≡ self.entry.log) × (result.at ≡ next) }
    {
        LogReader { at: next, ..self }
    }
}

// The line at a position, by a reader that has come so far. A caller with a plain slice has no reader to hold.
pub fn next_line(log: &[u8], at: usize) -> Option<LogLine>
    requires { LineEnds log.now at }
    ensures { result ≡ line_told (stroke_at log.now at) }
{
    LogReader::resumed(log, at).line()
}
