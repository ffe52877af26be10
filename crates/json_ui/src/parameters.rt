//! The parameters of a request object, read as numbers, places and buttons.

ghost use Rattle.std.specs.Prelude.{◌≡◌, ◌≤◌, option_map};
ghost use Rattle.serde_json.specs.View.{view};
ghost use Rattle.json_ui.specs.Methods.{parameter_at, has_more_than, whole_at, signed_at, within_32_bits, lines_at, below_32_bits, coord_of, coord_at, button_named, button_at, pointed_in};

use mouse_events::Button;
use serde_json::Value;
use text_model::Coord;

// The parameter with a number, counted from 0, if there are so many in an array.
fn parameter_at<'a>(request: &'a Value, n: usize) -> Option<&'a Value>
    ensures { option_map (λ v. view v.now) result ≡ parameter_at n (view request.now) }
{
    match request.get("params") {
        Some(parameters) => parameters.get(n),
        None => None,
    }
}

/// Whether there are more parameters than so many.
pub(crate) fn has_more_than(request: &Value, n: usize) -> bool
    ensures { result ≡ has_more_than n (view request.now) }
{
    match parameter_at(request, n) {
        Some(_) => true,
        None => false,
    }
}

/// The whole number from 0 and below 2^64 that a parameter is, if it is one.
pub(crate) fn whole_at(request: &Value, n: usize) -> Option<u64>
    ensures { result ≡ whole_at n (view request.now) }
{
    parameter_at(request, n).and_then(Value::as_u64)
}

/// The whole number from -2^63 and below 2^63 that a parameter is, if it is one.
pub(crate) fn signed_at(request: &Value, n: usize) -> Option<i64>
    ensures { result ≡ signed_at n (view request.now) }
{
    parameter_at(request, n).and_then(Value::as_i64)
}

// A number, if it has 32 bits with its sign.
fn within_32_bits(number: i64) -> Option<i32>
    ensures { result ≡ within_32_bits number }
{
    i32::try_from(number).ok()
}

/// The number of lines that a parameter is, by which a window is to go on or back.
pub(crate) fn lines_at(request: &Value, n: usize) -> Option<i32>
    ensures { result ≡ lines_at n (view request.now) }
{
    within_32_bits(signed_at(request, n)?)
}

// A number, if it has 32 bits.
fn below_32_bits(number: u64) -> Option<u32>
    ensures { result ≡ below_32_bits number }
{
    u32::try_from(number).ok()
}

// The place of a line and a column, if there are both.
fn coord_of(line: Option<u32>, column: Option<u32>) -> Option<Coord>
    ensures { result ≡ coord_of line column }
{
    match (line, column) {
        (Some(line), Some(column)) => Some(Coord { line, column }),
        _ => None,
    }
}

/// The place that two parameters are, from one on.
pub(crate) fn coord_at(request: &Value, n: usize) -> Option<Coord>
    requires { n ≤ 1 }
    ensures { result ≡ coord_at n (view request.now) }
{
    let line = whole_at(request, n).and_then(below_32_bits);
    let column = whole_at(request, n + 1).and_then(below_32_bits);
    coord_of(line, column)
}

// The button of a name.
fn button_named(name: &str) -> Option<Button>
    ensures { result ≡ button_named name.now }
{
    match name {
        "left" => Some(Button::Left),
        "middle" => Some(Button::Middle),
        "right" => Some(Button::Right),
        _ => None,
    }
}

// The button that a parameter names.
fn button_at(request: &Value, n: usize) -> Option<Button>
    ensures { result ≡ button_at n (view request.now) }
{
    let name = parameter_at(request, n).and_then(Value::as_str)?;
    button_named(name)
}

/// The button and the place that the parameters are, or the left button and the place that they are.
pub(crate) fn pointed_in(request: &Value) -> Option<(Button, Coord)>
    ensures { result ≡ pointed_in (view request.now) }
{
    if has_more_than(request, 3) {
        return None;
    }
    if has_more_than(request, 2) {
        let button = button_at(request, 0)?;
        let place = coord_at(request, 1)?;
        return Some((button, place));
    }
    let place = coord_at(request, 0)?;
    Some((Button::Left, place))
}
