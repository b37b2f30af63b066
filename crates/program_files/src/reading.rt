// Reading a file from its start on, to its end or until the area is full, and the program's arguments.
// A read that fails is told apart from the end of the file.
ghost use Rattle.std.specs.Prelude.{◌≤◌, length, IfSome};
ghost use Rattle.program_files.specs.Counts.{HoldsContents};

use program_saying::{NAME_TOO_LONG, fail, file_name, in_file};
use std::env::{Env, FillError};
use std::fs::Files;
use std::io::{Eprint, Error, ErrorKind, Read};
use std::{fs, io};

// Reads behind the bytes that are there, until the area is full or the file ends: how many bytes it holds
// then. A call that a signal interrupts is made again. Nothing says that the calls come to an end, so
// their number is bounded, by one that no run reaches.
pub fn fill<R: Eprint, F: Read>(
    rt: &R,
    file: &mut F,
    path: &[u8],
    buf: &mut [u8],
    held: usize,
) -> Option<usize>
    requires { held ≤ length buf.old }
    ensures { HoldsContents result buf.new }
{
    let mut done = held;
    for _ in 0..u64::MAX {
        if done == buf.len() {
            return Some(done);
        }
        match file.read(&mut buf[done..]) {
            Ok(0) => return Some(done),
            Ok(more) => done += more,
            Err(why) if why.kind() == ErrorKind::Interrupted => {}
            Err(why) => {
                fail(rt, path, why);
                return None;
            }
        }
    }
    None
}

// Asks the system for the file of that name.
pub fn open_to_read<R: Files>(rt: &R, path: &[u8]) -> io::Result<R::File> {
    fs::open(rt, file_name(path)?)
}

// Opens the file of that name to read it, or says why not.
pub fn open<R: Files + Eprint>(rt: &R, path: &[u8]) -> Option<R::File> {
    match open_to_read(rt, path) {
        Ok(file) => Some(file),
        Err(why) => {
            fail(rt, path, why);
            None
        }
    }
}

// Reads the file of that name. Who lends one byte more than the longest file that is of use sees that
// a file is too long.
pub fn read_file<'a, R: Files + Eprint>(rt: &R, path: &[u8], buf: &'a mut [u8]) -> Option<&'a [u8]>
    ensures { IfSome result (λ bytes. length bytes.now ≤ length buf.old) }
{
    let mut file = open(rt, path)?;
    let n = fill(rt, &mut file, path, buf, 0)?;
    Some(&buf[..n])
}

// Whether there is no argument of that number.
fn is_missing<R: Env>(rt: &R, number: usize) -> bool {
    let mut spare = [0u8; 1];
    matches!(rt.arg(number, &mut spare), Err(FillError::NotPresent))
}

// How many arguments there are, with the program's own name.
pub fn argument_count<R: Env>(rt: &R) -> usize {
    (0..usize::MAX)
        .find(|number| is_missing(rt, *number))
        .unwrap_or(usize::MAX)
}

// The system's number for an argument that is not there.
const INVALID: i32 = 22;

// Why an argument was not put into an area.
fn not_filled(why: FillError) -> Error {
    match why {
        FillError::TooLong => Error::from_raw_os_error(NAME_TOO_LONG),
        FillError::NotPresent => Error::from_raw_os_error(INVALID),
    }
}

// The program's argument of that number, or says that it is empty or too long. The usage calls it `what`.
pub fn argument<'a, R: Env + Eprint>(
    rt: &R,
    number: usize,
    what: &[u8],
    buf: &'a mut [u8],
) -> Option<&'a [u8]>
    ensures { IfSome result (λ name. length name.now ≤ length buf.old) }
{
    match rt.arg(number, buf) {
        Ok(0) => {
            in_file(rt, what, "the name is empty");
            None
        }
        Ok(n) => Some(&buf[..n]),
        Err(why) => {
            fail(rt, what, not_filled(why));
            None
        }
    }
}
