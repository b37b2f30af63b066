// A tower file as it would be if the player were sure to come.
ghost use Rattle.std.specs.Prelude.{◌≤◌, length};

use crate::fields;

// In the copy of a file each action of the player's becomes one that is sure to come.
fn make_sure(bytes: &[u8], copy: &mut [u8]) {
    for action in 0..fields::actions(bytes) {
        if let Some(kind) = copy.get_mut(fields::kind_place(action)) {
            if *kind == 0 {
                *kind = file_kinds::SURE as u8;
            }
        }
    }
}

// Copies the file so, as far as there is room. Answers how many bytes are copied.
pub fn sure_copy(bytes: &[u8], copy: &mut [u8]) -> usize
    ensures { result ≤ length copy.new }
{
    let n = bytes.len().min(copy.len());
    copy[..n].copy_from_slice(&bytes[..n]);
    make_sure(bytes, &mut copy[..n]);
    n
}
