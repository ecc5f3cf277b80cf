// A decimal number below 2^64.
ghost use Rattle.std.specs.Prelude.{◌≡◌};
ghost use Rattle.script.specs.Decimal.{with_digit, number_of};

// The number with one digit more.
fn with_digit(value: u64, octet: u8) -> Option<u64>
    ensures { result ≡ with_digit value octet }
{
    if !octet.is_ascii_digit() {
        return None;
    }
    value.checked_mul(10)?.checked_add(u64::from(octet - b'0'))
}

// The number that a word says: all digits, and at least one.
pub fn read_number(word: &[u8]) -> Option<u64>
    ensures { result ≡ number_of word.now }
{
    if word.is_empty() {
        return None;
    }
    let mut value: u64 = 0;
    for octet in word {
        value = with_digit(value, *octet)?;
    }
    Some(value)
}
