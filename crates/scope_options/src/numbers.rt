//! Numbers of options.

ghost use Rattle.std.specs.Prelude.{◌≡◌, ◌≤◌, IfSome};
ghost use Rattle.scope_options.specs.Numbers.{number_of};

use crate::value::OptionValue;

/// The number that a value is, where that is none below `low` and none above `high`.
pub(crate) fn number_of(value: &OptionValue, low: u32, high: u32) -> Option<u32>
    ensures value { result ≡ number_of low high value.now }
    ensures least { IfSome result (λ n. low ≤ n) }
    ensures most { IfSome result (λ n. n ≤ high) }
{
    let OptionValue::Int(number) = value else {
        return None;
    };
    let number = u32::try_from(*number).ok()?;
    if low <= number && number <= high {
        return Some(number);
    }
    None
}
