// What the system says of the file at a path: its kind, and the device and the number by which two
// names of one file are told.
#![tactic(auto)]

ghost use Rattle.std.specs.Prelude.{◌<◌};
ghost use Rattle.program_status.specs.Paths.{Ended};

use std::fs::{FileType, Files, Metadata};
use std::os::unix::fs::{FileTypeExt, MetadataExt};
use std::{fs, io};

// The kinds of files that are told apart.
#[derive(Clone, Copy, PartialEq, Eq)]
pub enum Kind {
    Regular,
    Folder,
    Pipe,
    Device,
    Other,
}

// Which file it is: the device, and the number on it.
#[derive(Clone, Copy, PartialEq, Eq)]
pub struct Identity {
    pub device: u64,
    pub number: u64,
}

#[derive(Clone, Copy)]
pub struct Status {
    pub kind: Kind,
    pub identity: Identity,
}

// The path as C takes it, as much as goes before the last byte, which is a zero.
fn ended(path: &[u8]) -> [u8; 4096]
    ensures { Ended result }
{
    let mut out = [0u8; 4096];
    let n = path.len().min(4095);
    out[..n].copy_from_slice(&path[..n]);
    out
}

// How many bytes of such a path stand before its first zero.
fn name_length(path: &[u8; 4096]) -> usize
    requires { Ended path.now }
    ensures { result < 4096 }
{
    path.iter().position(|b| *b == 0).unwrap()
}

// Asks the system. Links are followed.
fn look<R: Files>(rt: &R, path: &[u8; 4096]) -> io::Result<Metadata>
    requires { Ended path.now }
{
    let n = name_length(path);
    let name = program_saying::file_name(&path[..n])?;
    fs::metadata(rt, name)
}

// The kind of a file.
fn kind_of(file: FileType) -> Kind {
    if file.is_file() {
        Kind::Regular
    } else if file.is_dir() {
        Kind::Folder
    } else if file.is_fifo() {
        Kind::Pipe
    } else if file.is_char_device() || file.is_block_device() {
        Kind::Device
    } else {
        Kind::Other
    }
}

// The status of the file at a path; links are followed. A path that is too long for the system is
// left to the call that opens it.
pub fn status_of<R: Files>(rt: &R, path: &[u8]) -> io::Result<Status> {
    let about = look(rt, &ended(path))?;
    Ok(Status {
        kind: kind_of(about.file_type()),
        identity: Identity {
            device: about.dev(),
            number: about.ino(),
        },
    })
}
