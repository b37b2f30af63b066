// Texts put into an area that the caller lends, from a position on: each answers the position after
// it. At the end of the area the rest of a text is left out.
#![tactic(auto)]

ghost use Rattle.std.specs.Prelude.{[], ◌∷◌, ◌<◌, ◌≡◌};
ghost use Rattle.program_texts.specs.Decimal.{decimal};
ghost use Rattle.program_texts.specs.Decimal.{digit as Decimal·digit};
ghost use Rattle.program_texts.specs.Putting.{Puts};

pub fn put_byte(out: &mut [u8], at: usize, byte: u8) -> usize
    ensures { Puts result (byte ∷ []) out.old at out.new }
{
    if out.len() <= at {
        return at;
    }
    out[at] = byte;
    at + 1
}

pub fn put_bytes(out: &mut [u8], at: usize, bytes: &[u8]) -> usize
    ensures { Puts result bytes.now out.old at out.new }
{
    let mut next = at;
    for byte in bytes {
        next = put_byte(out, next, *byte);
    }
    next
}

// A number in decimal digits.
pub fn put_decimal(out: &mut [u8], at: usize, n: usize) -> usize
    ensures { Puts result (decimal n) out.old at out.new }
{
    if n < 10 {
        return put_byte(out, at, digit(n));
    }
    let next = put_decimal(out, at, n / 10);
    put_byte(out, next, digit(n % 10))
}

// The character of a digit.
fn digit(d: usize) -> u8
    requires { d < 10 }
    ensures { result ≡ Decimal·digit d }
{
    b'0' + d as u8
}
