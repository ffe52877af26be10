//! Decimal numbers in words.

ghost use Rattle.std.specs.Prelude.{◌≡◌};
ghost use Rattle.command_forms.specs.Numbers.{is_digit, whole_number, number_of};

// Whether a byte is a decimal digit.
fn is_digit(d: u8) -> bool
    ensures { result ≡ is_digit d }
{
    d >= b'0' && d <= b'9'
}

/// The number that a text of digits is; leading zeros are allowed, and one that is too great counts as the greatest one,
/// 2^32 - 1. None where the text is empty or has anything but digits.
pub fn whole_number(digits: &[u8]) -> Option<u32>
    ensures { result ≡ whole_number digits.now }
{
    if digits.is_empty() {
        return None;
    }
    let mut n: u32 = 0;
    for d in digits {
        if !is_digit(*d) {
            return None;
        }
        n = n.saturating_mul(10).saturating_add(u32::from(*d - b'0'));
    }
    Some(n)
}

/// The number that a text of digits is, from 1 on.
pub(crate) fn number_of(digits: &[u8]) -> Option<u32>
    ensures { result ≡ number_of digits.now }
{
    let n = whole_number(digits)?;
    if n == 0 {
        return None;
    }
    Some(n)
}
