//! Lines of JSON, read as requests.

ghost use Rattle.std.specs.Prelude.{◌≡◌, ◌≤◌, ◌^◌, ◌<◌, length, is_some, true, Some, Ok, IfOk, IfErr};
ghost use Rattle.std.specs.Option.{option_copied};
ghost use Rattle.std.specs.List.{list_all};
ghost use Rattle.std.specs.Str.{chars, is_utf8};
ghost use Rattle.serde_json.specs.View.{view, items_view};
ghost use Rattle.serde_json.specs.Find.{as_str};
ghost use Rattle.serde_json.specs.Read.{read};
ghost use Rattle.key_names.specs.Reading.{read_text};
ghost use Rattle.json_ui.specs.Parameters.{IsParameterError, IsJsonError, HasFewParameters, texts_seen};
ghost use Rattle.json_ui.specs.Requests.{is_blank, text_at, is_text, item_texts, keys_in, keys_request, keys_of_texts, texts_request, value_request, read_request};
ghost use Rattle.requests.specs.Reading.{IsLineError};

use crate::methods::{
    fitting, menu_select_in, move_in, press_in, release_in, resize_in, scroll_in,
};
use drawings::Refusal;
use key_names::{Key, KeyError, Keys, read_keys};
use requests::{LineError, Request};
use serde_json::Value;
use std::alloc::{AllocError, Global};

/// How many bytes a line may have.
pub const MAX_LINE: usize = 1_048_576;

// A space, a tab or a carriage return.
fn is_blank(byte: u8) -> bool
    ensures { result ≡ is_blank byte }
{
    byte == b' ' || byte == b'\t' || byte == b'\r'
}

// The text at a name of an object.
fn text_at<'a>(value: &'a Value, name: &str) -> Option<&'a str>
    ensures { option_copied result ≡ text_at name.now (view value.now) }
{
    value.get(name).and_then(Value::as_str)
}

// Whether the text at a name is this one.
fn has_text(value: &Value, name: &str, wanted: &str) -> bool
    ensures { result ≡ is_text wanted.now (text_at name.now (view value.now)) }
{
    match text_at(value, name) {
        Some(text) => text == wanted,
        None => false,
    }
}

// Whether a line has nothing but blanks.
fn is_blank_line(line: &[u8]) -> bool
    ensures { result ≡ list_all is_blank line.now }
{
    line.iter().all(|byte| is_blank(*byte))
}

// Whether all items are strings.
fn are_texts(items: &[Value]) -> bool
    ensures { result ≡ list_all (λ v. is_some (as_str (view v))) items.now }
{
    items.iter().all(Value::is_string)
}

// The keys of the parameter of this number.
fn read_parameter(alloc: Global, text: &str, number: u32) -> Result<Vec<Key>, LineError>
    ensures keys { IfOk result (λ v. read_text (chars text.now) ≡ Ok v.items) }
    ensures error { IfErr result (λ e. IsParameterError e number (read_text (chars text.now))) }
{
    match read_keys(alloc, text) {
        Ok(keys) => Ok(keys),
        Err(KeyError::BadKey(_)) => Err(LineError::Refused(Refusal::Key(number))),
        Err(KeyError::NoMemory) => Err(LineError::NoMemory),
    }
}

// The keys of items that are all strings.
fn read_items(alloc: Global, items: &[Value]) -> Result<Vec<Key>, LineError>
    requires small { length items.now ≤ 2 ^ 32 }
    requires strings { list_all (λ v. is_some (as_str (view v))) items.now ≡ true }
    ensures keys { IfOk result (λ v. keys_of_texts 0 (texts_seen items.now) ≡ Ok v.items) }
    ensures error { IfErr result (λ e. IsLineError e (keys_request (keys_of_texts 0 (texts_seen items.now)))) }
{
    let mut keys = Vec::new(alloc);
    for (k, item) in items.iter().enumerate() {
        let Some(text) = item.as_str() else {
            return Err(LineError::Refused(Refusal::Params));
        };
        let more = read_parameter(alloc, text, k as u32)?;
        keys.extend_from_slice(more.as_slice())?;
    }
    Ok(keys)
}

// The request of an array of parameters.
fn read_array(alloc: Global, items: &[Value]) -> Result<Request, LineError>
    requires { length items.now ≤ 2 ^ 32 }
    ensures request { IfOk result (λ r. texts_request (item_texts (items_view items.now)) ≡ Ok r) }
    ensures error { IfErr result (λ e. IsLineError e (texts_request (item_texts (items_view items.now)))) }
{
    if !are_texts(items) {
        return Err(LineError::Refused(Refusal::Params));
    }
    let keys = read_items(alloc, items)?;
    Ok(Request::Keys(Keys::of_vec(keys)))
}

// The request of `keys`.
fn read_parameters(alloc: Global, value: &Value) -> Result<Request, LineError>
    requires { HasFewParameters (view value.now) }
    ensures request { IfOk result (λ r. keys_in (view value.now) ≡ Ok r) }
    ensures error { IfErr result (λ e. IsLineError e (keys_in (view value.now))) }
{
    let Some(parameters) = value.get("params") else {
        return Ok(Request::Keys(Keys::of_vec(Vec::new(alloc))));
    };
    let Some(items) = parameters.as_array() else {
        return Err(LineError::Refused(Refusal::Params));
    };
    read_array(alloc, items)
}

// The request of a JSON value.
fn read_value(alloc: Global, value: &Value) -> Result<Request, LineError>
    requires { HasFewParameters (view value.now) }
    ensures request { IfOk result (λ r. value_request (view value.now) ≡ Ok r) }
    ensures error { IfErr result (λ e. IsLineError e (value_request (view value.now))) }
{
    if !has_text(value, "jsonrpc", "2.0") {
        return Err(LineError::Refused(Refusal::Invalid));
    }
    match text_at(value, "method") {
        None => Err(LineError::Refused(Refusal::Invalid)),
        Some("keys") => read_parameters(alloc, value),
        Some("resize") => fitting(resize_in(value)),
        Some("scroll") => fitting(scroll_in(value)),
        Some("mouse_move") => fitting(move_in(value)),
        Some("mouse_press") => fitting(press_in(value)),
        Some("mouse_release") => fitting(release_in(value)),
        Some("menu_select") => fitting(menu_select_in(value)),
        Some(_) => Err(LineError::Refused(Refusal::Method)),
    }
}

// The value of a line.
fn read_json(alloc: Global, line: &[u8]) -> Result<Value, LineError>
    ensures value { IfOk result (λ v. (is_utf8 line.now ≡ true) × (read line.now ≡ Some (view v))) }
    ensures error { IfErr result (λ e. IsJsonError e line.now) }
{
    match Value::from_slice(alloc, line) {
        Ok(value) => Ok(value),
        Err(e) => {
            if e.is_memory() {
                return Err(LineError::NoMemory);
            }
            Err(LineError::Refused(Refusal::Parse))
        }
    }
}

/// The request of a line, without its newline, or the first refusal that holds: `TooLong`, `Parse`,
/// `Invalid`, `Method`, `Params`, `Key`. A refused line changes nothing.
pub fn decode_line(alloc: Global, line: &[u8]) -> Result<Request, LineError>
    ensures request { IfOk result (λ r. read_request line.now ≡ Ok r) }
    ensures error { IfErr result (λ e. IsLineError e (read_request line.now)) }
{
    if line.len() > MAX_LINE {
        return Err(LineError::Refused(Refusal::TooLong));
    }
    if is_blank_line(line) {
        return Ok(Request::Nothing);
    }
    let value = read_json(alloc, line)?;
    read_value(alloc, &value)
}
