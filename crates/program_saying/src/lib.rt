// Words on standard error, for whoever has to mend a file. Where standard error takes no words, nothing
// is said.
#![tactic(auto)]

ghost use Rattle.std.specs.Prelude.{◌≡◌, ◌≤◌, ◌⊎◌, length, IfOk, IfErr, IsUtf8};

use std::fmt::{Display, Formatter};
use std::io::{Cursor, Eprint, Error, ErrorKind, Write};
use std::{fmt, io, str};

// Bytes as they are shown, such as the name of a file: where they are not UTF-8, one that is not ASCII is
// a question mark.
#[derive(Clone, Copy)]
pub struct Shown<'a>(pub &'a [u8]);

impl<'a> Display for Shown<'a> {
    fn fmt<W: fmt::Write>(&self, f: &mut Formatter<W>) -> fmt::Result {
        if let Ok(text) = str::from_utf8(self.0) {
            return f.write_str(text);
        }
        for byte in self.0 {
            f.write_char(if byte.is_ascii() {
                char::from(*byte)
            } else {
                '?'
            })?;
        }
        Ok(())
    }
}

// Writes words.
pub fn say<R: Eprint>(rt: &R, words: impl Display + Drop) {
    let _ = rt.eprint(words);
}

// Says what is wrong with a file.
pub fn in_file<R: Eprint>(rt: &R, file: &[u8], words: impl Display + Drop) {
    say(rt, format_args!("{}: {words}\n", Shown(file)));
}

// The words of an error without the number that std puts behind those of the system.
fn words_of(text: &str) -> &str {
    match text.split_once(" (os error ") {
        Some((words, _)) => words,
        None => text,
    }
}

// Puts an error as std shows it into an area, and answers where it ends.
fn put_error(why: Error, area: &mut [u8]) -> usize {
    let mut out = Cursor::new(area);
    let _ = write!(out, "{why}");
    out.position() as usize
}

// Says why a call of the system on a file failed.
pub fn fail<R: Eprint>(rt: &R, file: &[u8], why: Error) {
    let mut area = [0u8; 320];
    let n = put_error(why, &mut area);
    let text = area.get(..n).unwrap_or(b"");
    in_file(rt, file, words_of(str::from_utf8(text).unwrap_or("")));
}

// A path of so many bytes is too long for the system.
const TOO_LONG: usize = 4096;

// The system's number for a name that is too long.
pub const NAME_TOO_LONG: i32 = 36;

// The name of a file as text, which is what std asks the system with. It is turned down only where it is too long or no
// text.
pub fn file_name(file: &[u8]) -> io::Result<&str>
    ensures named { IfOk result (λ name. name.now ≡ file.now) }
    ensures turned_down { IfErr result (λ _. (4096 ≤ length file.now) ⊎ ¬ (IsUtf8 file.now)) }
{
    if TOO_LONG <= file.len() {
        return Err(Error::from_raw_os_error(NAME_TOO_LONG));
    }
    str::from_utf8(file).map_err(|_| Error::new(
        ErrorKind::InvalidFilename,
        "the name is not UTF-8",
    ))
}
