// Whether a table may be written under a name: the name is new, or that of a regular file that is
// neither the tower nor the book. Names are compared by the files that they lead to.
#![tactic(auto)]

use program_saying::{fail, in_file};
use program_status::{Kind, Status, status_of};
use std::fs::Files;
use std::io::{Eprint, ErrorKind};

// Says what is there in place of a regular file.
fn not_regular<R: Eprint>(rt: &R, table: &[u8], what: &str) -> bool {
    in_file(
        rt,
        table,
        format_args!("this is {what}; TABLE has to be a file or a new name"),
    );
    false
}

// A path of so many bytes is too long for the system; the call that opens it says so.
const TOO_LONG: usize = 4096;

// Whether the file that is there is another than the one that this name leads to, which the usage calls
// `what`; says why not.
fn spares<R: Files + Eprint>(rt: &R, there: Status, table: &[u8], name: &[u8], what: &str) -> bool {
    if TOO_LONG <= name.len() {
        return true;
    }
    match status_of(rt, name) {
        Ok(other) if other.identity == there.identity => {
            in_file(
                rt,
                table,
                format_args!("TABLE is the same file as {what}, and would replace it"),
            );
            false
        }
        Ok(_) => true,
        Err(why) => {
            fail(rt, name, why);
            false
        }
    }
}

// Whether the file that is there may be replaced; says why not.
fn replaceable<R: Files + Eprint>(
    rt: &R,
    there: Status,
    table: &[u8],
    tower: &[u8],
    book: &[u8],
) -> bool {
    match there.kind {
        Kind::Regular => {
            spares(rt, there, table, tower, "TOWER") && spares(rt, there, table, book, "BOOK")
        }
        Kind::Folder => not_regular(rt, table, "a folder"),
        Kind::Pipe => not_regular(rt, table, "a pipe"),
        Kind::Device => not_regular(rt, table, "a device"),
        Kind::Other => not_regular(rt, table, "no ordinary file"),
    }
}

// Whether the table may be written; says why not. What is there is looked at, and nothing is opened
// or changed.
pub fn allowed<R: Files + Eprint>(rt: &R, table: &[u8], tower: &[u8], book: &[u8]) -> bool {
    if TOO_LONG <= table.len() {
        return true;
    }
    match status_of(rt, table) {
        Ok(there) => replaceable(rt, there, table, tower, book),
        Err(why) if why.kind() == ErrorKind::NotFound => true,
        Err(why) => {
            fail(rt, table, why);
            false
        }
    }
}
