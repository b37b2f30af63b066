// Bytes that ask nothing of the caller, for the words of the programs: a byte past the end is 0, and a
// number that is too large is the largest.
#![tactic(auto)]

ghost use Rattle.std.specs.Prelude.{◌<◌};

// The byte at a place, or 0 past the end.
pub fn byte_at(bytes: &[u8], at: usize) -> u8 {
    bytes.get(at).copied().unwrap_or(0)
}

// The byte at a place as a number.
pub fn number_at(bytes: &[u8], at: usize) -> usize
    ensures { result < 256 }
{
    usize::from(byte_at(bytes, at))
}

// The two bytes from a place on as a number, the low byte first.
pub fn two_at(bytes: &[u8], at: usize) -> usize
    ensures { result < 65536 }
{
    let pair = [byte_at(bytes, at), byte_at(bytes, at.saturating_add(1))];
    usize::from(u16::from_le_bytes(pair))
}

// How many digits stand from a place on, counted up to so many.
pub fn digits(bytes: &[u8], at: usize, most: usize) -> usize {
    bytes
        .iter()
        .skip(at)
        .take(most)
        .take_while(|b| b.is_ascii_digit())
        .count()
}

// The number of a digit.
fn digit(b: &u8) -> Option<usize> {
    match *b {
        b'0'..=b'9' => Some(usize::from(*b - b'0')),
        _ => None,
    }
}

// The number that the digits from a place on spell, so many of them at most.
pub fn spelled(bytes: &[u8], at: usize, most: usize) -> usize {
    bytes
        .iter()
        .skip(at)
        .take(most)
        .map_while(|b| digit(b))
        .fold(0, |n: usize, d| n.saturating_mul(10).saturating_add(d))
}
