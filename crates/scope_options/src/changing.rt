//! What is set, and what an option would be set to.

ghost use Rattle.std.specs.Prelude.{◌≡◌, IfOk};
ghost use Rattle.std.specs.Option.{option_copied};
ghost use Rattle.tables.specs.Tables.{place_where};
ghost use Rattle.scope_options.specs.Settings.{is_at, value_at, seen_over};
ghost use Rattle.scope_options.specs.Changes.{taken, value_beside, new_value};

use crate::scope::{Scope, is_same};
use crate::setting::Setting;
use crate::value::{OptionValue, added, kind_of, read_value};
use crate::within::is_within;
use byte_texts::Words;
use std::alloc::{AllocError, Global};

/// Whether a row is that of a scope and a name.
pub(crate) fn is_at(row: &Setting, scope: Scope, name: &str) -> bool
    ensures { result ≡ is_at scope name.now row.now }
{
    is_same(row.scope, scope) && row.name.as_str() == name
}

/// The place of the row of a scope and a name, or how many rows there are where none is.
pub(crate) fn place(rows: &[Setting], scope: Scope, name: &str) -> usize
    ensures { result ≡ place_where (is_at scope name.now) rows.now }
{
    for (i, row) in rows.iter().enumerate() {
        if is_at(row, scope, name) {
            return i;
        }
    }
    rows.len()
}

/// The value that is set at a scope itself.
pub(crate) fn value_at<'a>(rows: &'a [Setting], scope: Scope, name: &str) -> Option<&'a OptionValue>
    ensures { option_copied result ≡ value_at scope name.now rows.now }
{
    for row in rows {
        if is_at(row, scope, name) {
            return Some(&row.value);
        }
    }
    None
}

/// The value that is seen from a scope outward, where the global one is given.
pub(crate) fn seen_over<'a>(
    global: &'a OptionValue,
    scope: Scope,
    name: &str,
    rows: &'a [Setting],
) -> &'a OptionValue
    ensures { result.now ≡ seen_over global.now scope name.now rows.now }
{
    match scope {
        Scope::Global => global,
        Scope::Buffer(_) => value_at(rows, scope, name).unwrap_or(global),
        Scope::Window(_, buffer) => {
            let outer = value_at(rows, Scope::Buffer(buffer), name).unwrap_or(global);
            value_at(rows, scope, name).unwrap_or(outer)
        }
    }
}

// The value that words are beside the one that is seen: itself, or added to that.
fn value_beside(
    alloc: Global,
    add: bool,
    seen: &OptionValue,
    value: OptionValue,
) -> Result<Option<OptionValue>, AllocError>
    ensures { IfOk result (λ o. o ≡ value_beside add seen.now value) }
{
    if add {
        return added(alloc, seen, value);
    }
    Ok(Some(value))
}

// A value, if the option takes it.
fn taken(name: &str, value: OptionValue) -> Option<OptionValue>
    ensures { result ≡ taken name.now value }
{
    if !is_within(name, &value) {
        return None;
    }
    Some(value)
}

/// The value that an option is set to by words, where its global value is given; None where there is none.
pub(crate) fn new_value(
    alloc: Global,
    global: &OptionValue,
    scope: Scope,
    name: &str,
    words: &Words,
    add: bool,
    rows: &[Setting],
) -> Result<Option<OptionValue>, AllocError>
    ensures { IfOk result (λ o. o ≡ new_value global.now scope name.now words.now add rows.now) }
{
    let Some(value) = read_value(alloc, kind_of(global), words)? else {
        return Ok(None);
    };
    let seen = seen_over(global, scope, name, rows);
    let Some(value) = value_beside(alloc, add, seen, value)? else {
        return Ok(None);
    };
    Ok(taken(name, value))
}
