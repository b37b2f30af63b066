// Numbers in files and lent areas, the low byte first, and areas that are cleared.
#![tactic(auto)]

ghost use Rattle.std.specs.Prelude.{◌+◌, ◌≤◌, ◌<◌, ◌≡◌, length, replicate};
ghost use Rattle.std.proofs.lemmas.List.Edits.{sets};
ghost use Rattle.base.specs.Bytes.{number_at, number_bytes};

// The two-byte number at p.
pub fn two_bytes(bytes: &[u8], p: usize) -> usize
    requires { p + 1 < length bytes.now }
    ensures { result ≡ number_at 2 bytes.now p }
{
    usize::from(u16::from_le_bytes([bytes[p], bytes[p + 1]]))
}

// The four-byte number at p.
pub fn four_bytes(bytes: &[u8], p: usize) -> usize
    requires { p + 3 < length bytes.now }
    ensures { result ≡ number_at 4 bytes.now p }
{
    let four = [bytes[p], bytes[p + 1], bytes[p + 2], bytes[p + 3]];
    u32::from_le_bytes(four) as usize
}

// The eight-byte number at p.
pub fn eight_bytes(bytes: &[u8], p: usize) -> usize
    requires { p + 7 < length bytes.now }
    ensures { result ≡ number_at 8 bytes.now p }
{
    let eight = [
        bytes[p],
        bytes[p + 1],
        bytes[p + 2],
        bytes[p + 3],
        bytes[p + 4],
        bytes[p + 5],
        bytes[p + 6],
        bytes[p + 7],
    ];
    usize::from_le_bytes(eight)
}

// Writes n as a two-byte number at p.
pub fn put_two_bytes(bytes: &mut [u8], p: usize, n: usize)
    requires { p + 1 < length bytes.old }
    ensures { bytes.new ≡ sets bytes.old p (number_bytes 2 n) }
{
    bytes[p] = (n % 256) as u8;
    bytes[p + 1] = (n / 256 % 256) as u8;
}

// The number in `width` bytes at p, one or two.
pub fn number(bytes: &[u8], p: usize, width: usize) -> usize
    requires le_width { 1 ≤ width }
    requires width_bound { width ≤ 2 }
    requires width_in_bounds { p + width ≤ length bytes.now }
    ensures { result ≡ number_at width bytes.now p }
{
    if width == 1 {
        return bytes[p] as usize;
    }
    two_bytes(bytes, p)
}

// Writes n in `width` bytes at p, one or two.
pub fn put_number(bytes: &mut [u8], p: usize, width: usize, n: usize)
    requires le_width { 1 ≤ width }
    requires width_bound { width ≤ 2 }
    requires width_in_bounds { p + width ≤ length bytes.old }
    ensures { bytes.new ≡ sets bytes.old p (number_bytes width n) }
{
    if width == 1 {
        bytes[p] = (n % 256) as u8;
        return;
    }
    put_two_bytes(bytes, p, n);
}

// Every byte is zero.
pub fn clear(area: &mut [u8])
    ensures { area.new ≡ replicate (length area.old) 0 }
{
    area.fill(0);
}
