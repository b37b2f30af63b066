// Numbers in decimal digits, read at a position of a text: of rule books (01, 'Rule book') and of
// logs (02, item 2).
#![tactic(auto)]

ghost use Rattle.std.specs.Prelude.{◌≡◌, [], ◌∷◌, suc, ◌≤◌, ◌<◌, true, length};
ghost use Rattle.base.specs.Bytes.{byte_at};
ghost use Rattle.reading.specs.Tokens as Tokens;
ghost use Rattle.text_numerals.specs.Numerals.{numeral_told, spelled, Stops};

// A number that was read, and the position after it.
#[derive(Clone, Copy)]
pub struct Number {
    pub said: usize,
    pub next: usize,
}

// The byte at a position; 0 past the end, which no number has.
pub fn byte_at(s: &[u8], at: usize) -> u8
    ensures { result ≡ byte_at s.now at }
{
    s.get(at).copied().unwrap_or(0)
}

fn is_digit(b: u8) -> bool
    ensures { result ≡ Tokens.is_digit b }
{
    matches!(b, b'0'..=b'9')
}

// A number of at least one and at most so many digits.
pub fn numeral(s: &[u8], at: usize, most: usize) -> Option<Number>
    requires { (1 ≤ most) × (most ≤ 10) }
    ensures { result ≡ numeral_told (Tokens.numeral most s.now at) }
{
    read::<false>(s, at, most)
}

// The same where a byte that is no digit is ahead: the number ends there at the latest, so that the end
// of the text is not looked for.
pub fn numeral_inside(s: &[u8], at: usize, most: usize) -> Option<Number>
    requires le_most { (1 ≤ most) × (most ≤ 10) }
    requires stops { Stops s.now at }
    ensures { result ≡ numeral_told (Tokens.numeral most s.now at) }
{
    read::<true>(s, at, most)
}

// A number of at most so many digits, read with the end of the text looked for or without.
fn read<const INSIDE: bool>(s: &[u8], at: usize, most: usize) -> Option<Number>
    requires le_most { (1 ≤ most) × (most ≤ 10) }
    requires stops { INSIDE ≡ true → Stops s.now at }
    ensures { result ≡ numeral_told (Tokens.numeral most s.now at) }
{
    let mut said = 0;
    let mut next = at;
    for n in 0..most {
        let b = byte::<INSIDE>(s, next);
        if !is_digit(b) {
            return spelled(n, said, next);
        }
        said = 10 * said + usize::from(b - b'0');
        next += 1;
    }
    spelled(most, said, next)
}

// The byte at a position, which is inside the text if so much is known.
fn byte<const INSIDE: bool>(s: &[u8], at: usize) -> u8
    requires { INSIDE ≡ true → at < length s.now }
    ensures { result ≡ byte_at s.now at }
{
    if INSIDE { s[at] } else { byte_at(s, at) }
}

// A number of at most two digits where a byte that is no digit is ahead. Whether a second digit stands
// there cannot be foreseen, so the position after the number comes out of a sum and not out of a branch.
pub fn short_numeral(s: &[u8], at: usize) -> Option<Number>
    requires { Stops s.now at }
    ensures { result ≡ numeral_told (Tokens.numeral 2 s.now at) }
{
    let first = s[at];
    if !is_digit(first) {
        return None;
    }
    let second = s[at + 1];
    let more = digit_count(second);
    Some(Number {
        said: two_digits(first, second, more),
        next: at + 1 + more,
    })
}

// How many digits a byte is: one or none.
fn digit_count(b: u8) -> usize
    ensures { result ≡ Tokens.digits 1 (b ∷ []) 0 }
{
    usize::from(is_digit(b))
}

// What a digit spells, with the next one behind it or without it.
fn two_digits(first: u8, second: u8, more: usize) -> usize
    requires le_first { 48 ≤ first }
    requires more_value { more ≡ Tokens.digits 1 (second ∷ []) 0 }
    ensures { result ≡ Tokens.value (suc more) (first ∷ second ∷ []) 0 }
{
    let tens = usize::from(first - b'0');
    if more == 1 {
        10 * tens + usize::from(second - b'0')
    } else {
        tens
    }
}

// What n digits spell: nothing where there are none.
fn spelled(n: usize, said: usize, next: usize) -> Option<Number>
    ensures { result ≡ spelled n said next }
{
    if n == 0 {
        None
    } else {
        Some(Number { said, next })
    }
}
