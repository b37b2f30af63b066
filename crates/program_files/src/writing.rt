// Writing: to standard output, and a file that takes the place of another only when it is whole.
use crate::naming;
use crate::reading::open_to_read;
use program_saying::{fail, file_name, in_file};
use std::fs::{Files, OpenFile, OpenOptions};
use std::io::{Eprint, Error, ErrorKind, Print, Write};
use std::random::RandomSource;
use std::{fs, io};

// All of the bytes. A call that a signal interrupts is made again. The number of calls is bounded, by one
// that no run reaches.
fn write_whole<W: Write>(to: &mut W, bytes: &[u8]) -> io::Result<()> {
    let mut rest = bytes;
    for _ in 0..u64::MAX {
        if rest.is_empty() {
            return Ok(());
        }
        match to.write(rest) {
            Ok(0) => break,
            Ok(more) => rest = &rest[more..],
            Err(why) if why.kind() == ErrorKind::Interrupted => {}
            Err(why) => return Err(why),
        }
    }
    Err(Error::new(ErrorKind::WriteZero, "nothing was written"))
}

// Whether a step was made; says of the file of that name why not.
fn is_made<R: Eprint>(rt: &R, path: &[u8], step: io::Result<()>) -> bool {
    if let Err(why) = step {
        fail(rt, path, why);
        return false;
    }
    true
}

// Writes bytes to standard output, or says that it cannot.
pub fn print<R: Print + Eprint>(rt: &R, bytes: &[u8]) -> bool {
    let step = write_whole(&mut io::writer(rt), bytes);
    is_made(rt, b"standard output", step)
}

// Writes to a new file that is open: the bytes are on the device. std makes a sync that a signal
// interrupts again, and what the close answers behind it is lost there.
fn fill<F: Write + OpenFile>(file: &mut F, bytes: &[u8]) -> io::Result<()> {
    write_whole(file, bytes)?;
    file.sync_all()
}

// Opens a folder and waits until its entries have reached their device.
fn sync_folder<R: Files>(rt: &R, folder: &[u8]) -> io::Result<()> {
    let file = open_to_read(rt, folder)?;
    match file.sync_all() {
        // A file system that cannot do this for a folder.
        Err(why) if why.kind() == ErrorKind::InvalidInput => Ok(()),
        synced => synced,
    }
}

// The folder of a file, synced.
fn sync_folder_of<R: Files>(rt: &R, path: &[u8]) -> io::Result<()> {
    match naming::folder_end(path) {
        0 => sync_folder(rt, b"."),
        end => sync_folder(rt, &path[..end]),
    }
}

// Says that nothing was written, and what that means for a file of this name.
pub fn unchanged<R: Eprint>(rt: &R, path: &[u8]) {
    in_file(
        rt,
        path,
        "no table was written; a file of this name, if there is one, is unchanged and from before",
    );
}

// Asks the system for a new file of that name, which nothing has yet.
fn create<R: Files>(rt: &R, temporary: &[u8]) -> io::Result<R::File> {
    let name = file_name(temporary)?;
    OpenOptions::new()
        .write(true)
        .create_new(true)
        .open(rt, name)
}

// Removes the temporary file, where that is still possible.
fn remove<R: Files>(rt: &R, temporary: &[u8]) {
    if let Ok(name) = file_name(temporary) {
        let _ = fs::remove_file(rt, name);
    }
}

// Asks the system to give a file another name.
fn rename<R: Files>(rt: &R, from: &[u8], to: &[u8]) -> io::Result<()> {
    fs::rename(rt, file_name(from)?, file_name(to)?)
}

// Fills the temporary file, which is open, and closes it; says why not before it is closed.
fn is_filled<R: Files + Eprint>(rt: &R, mut file: R::File, path: &[u8], bytes: &[u8]) -> bool {
    let step = fill(&mut file, bytes);
    is_made(rt, path, step)
}

// Makes the temporary file, fills it, and has it replace the file of that name; or says why not, and then
// leaves none behind.
fn replace<R: Files + Eprint>(
    rt: &R,
    temporary: &[u8],
    path: &[u8],
    bytes: &[u8],
) -> io::Result<bool> {
    let file = create(rt, temporary)?;
    let replaced = is_filled(rt, file, path, bytes)
        && is_made(rt, path, rename(rt, temporary, path));
    if !replaced {
        remove(rt, temporary);
    }
    Ok(replaced)
}

// The same, with a name for the temporary file.
fn put_in_place<R: Files + RandomSource + Eprint>(
    rt: &R,
    path: &[u8],
    bytes: &[u8],
) -> io::Result<bool> {
    let mut name = [0u8; 4096];
    let mut random = [0u8; 4];
    rt.fill_bytes(&mut random)?;
    let n = naming::temporary(path, &random, &mut name);
    replace(rt, &name[..n], path, bytes)
}

// Whether the file is in place; says why not.
fn is_in_place<R: Files + RandomSource + Eprint>(rt: &R, path: &[u8], bytes: &[u8]) -> bool {
    match put_in_place(rt, path, bytes) {
        Ok(replaced) => replaced,
        Err(why) => is_made(rt, path, Err(why)),
    }
}

// Writes a file: first under another name in the same folder, whole and on the device, which then
// replaces the old one; then the folder is told. So at any moment the old file or the new one is there,
// whole. Where it fails it says why and which of the two is there, and leaves no other file behind.
pub fn save<R: Files + RandomSource + Eprint>(rt: &R, path: &[u8], bytes: &[u8]) -> bool {
    if !is_in_place(rt, path, bytes) {
        unchanged(rt, path);
        return false;
    }
    let step = sync_folder_of(rt, path);
    if !is_made(rt, b"the folder of the table", step) {
        in_file(
            rt,
            path,
            "the new table is in place; whether it or the old one is there after a power failure is open, since the folder is not synced",
        );
        return false;
    }
    true
}
