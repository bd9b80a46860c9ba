// Numbers in base ten.
ghost use Rattle.std.specs.Prelude.{◌≡◌};
ghost use Rattle.text.specs.Numbers.{number_of};

// The number that a run of digits writes, or none where it begins with a zero too many or is too large.
pub fn number(digits: &[u8]) -> Option<u32>
    ensures { result ≡ number_of digits.now }
{
    if digits.len() > 1 && digits[0] == b'0' {
        return None;
    }
    // Stays: tried; behind a `try_fold` `returns` did not close, since no fact says what it went through.
    let mut value: u32 = 0;
    for digit in digits {
        let units = u32::from(digit.saturating_sub(b'0'));
        value = value.checked_mul(10)?.checked_add(units)?;
    }
    Some(value)
}
