// The numbers in a text.
ghost use Rattle.std.specs.Prelude.{◌<◌};

// The value of a digit, 0 to 9 and A to F: `to_digit` would take small letters too.
fn digit(c: u8) -> u8
    ensures { result < 16 }
{
    match c {
        b'0'..=b'9' => c - b'0',
        b'A'..=b'F' => c - b'A' + 10,
        _ => 0,
    }
}

// A number with one more decimal digit behind it. A number that this would take past 64 bits stays as it is.
fn grown(number: u64, c: u8) -> u64 {
    number
        .checked_mul(10)
        .and_then(|tens| tens.checked_add(u64::from(digit(c) % 10)))
        .unwrap_or(number)
}

// A word's number, in decimal.
pub fn decimal(word: &[u8]) -> u64 {
    let digits = word.iter().take_while(|c| **c != b'*');
    digits.fold(0, |number, c| grown(number, *c))
}

// A word's byte, in two digits of hex.
pub fn byte(word: &[u8]) -> u8 {
    match word {
        [high, low, ..] => digit(*high) * 16 + digit(*low),
        _ => 0,
    }
}

// How often a word stands. Two spaces have an empty word between them, which does not count.
pub fn times(word: &[u8]) -> usize {
    match word.splitn(2, |c| *c == b'*').nth(1) {
        Some(number) if !number.is_empty() => decimal(number) as usize,
        _ => usize::from(!word.is_empty()),
    }
}
