// Names of files: that of a temporary file beside another, and the folder of a file.
ghost use Rattle.std.specs.Prelude.{◌<◌, ◌≡◌, take};
ghost use Rattle.base.specs.Bytes.{number_at};
ghost use Rattle.program_texts.specs.Putting.{PrintedLine};
ghost use Rattle.program_files.specs.Names.{temporary_name, FolderEnd};

// Four bytes as a number, the low byte first.
fn number(b: &[u8; 4]) -> usize
    ensures { result ≡ number_at 4 b.now 0 }
{
    u32::from_le_bytes(*b) as usize
}

// The name of a temporary file in the same folder: the file's own, a number and `tmp`. One that is
// too long for a path is cut at 4,096 bytes, a length that no path has.
pub fn temporary(path: &[u8], random: &[u8; 4], name: &mut [u8; 4096]) -> usize
    ensures { PrintedLine result (take 4096 (temporary_name path.now (number_at 4 random.now 0))) name.new }
{
    let a = program_texts::put_bytes(name, 0, path);
    let b = program_texts::put_byte(name, a, b'.');
    let c = program_texts::put_decimal(name, b, number(random));
    program_texts::put_bytes(name, c, b".tmp")
}

// Where the folder's part of a name ends, behind its last slash; 0 where it has none.
pub fn folder_end(path: &[u8]) -> usize
    ensures { FolderEnd result path.now }
{
    match path.iter().rposition(|b| *b == b'/') {
        Some(slash) => slash + 1,
        None => 0,
    }
}
