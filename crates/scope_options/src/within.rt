//! Which values the given options take.

ghost use Rattle.std.specs.Prelude.{◌≡◌};
ghost use Rattle.scope_options.specs.Values.{is_between, is_within_int, is_within_text, is_within};

use crate::value::OptionValue;

// Whether a number is none below one and none above another.
fn is_between(low: u32, high: u32, number: i32) -> bool
    ensures { result ≡ is_between low high number }
{
    match u32::try_from(number) {
        Ok(number) => low <= number && number <= high,
        Err(_) => false,
    }
}

// Whether an option of numbers takes one.
fn is_within_int(name: &str, number: i32) -> bool
    ensures { result ≡ is_within_int name.now number }
{
    match name {
        "tabstop" => is_between(1, 64, number),
        "indentwidth" => is_between(0, 64, number),
        _ => true,
    }
}

// Whether an option of texts takes one.
fn is_within_text(name: &str, text: &str) -> bool
    ensures { result ≡ is_within_text name.now text.now }
{
    match name {
        "eolformat" => text == "lf" || text == "crlf",
        "BOM" => text == "none" || text == "utf8",
        _ => true,
    }
}

/// Whether an option takes a value of its type.
pub(crate) fn is_within(name: &str, value: &OptionValue) -> bool
    ensures { result ≡ is_within name.now value.now }
{
    match value {
        OptionValue::Int(number) => is_within_int(name, *number),
        OptionValue::Str(text) => is_within_text(name, text.as_str()),
        _ => true,
    }
}
