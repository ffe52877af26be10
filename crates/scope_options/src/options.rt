//! The options of a session.

ghost use Rattle.std.specs.Prelude.{◌≡◌, ◌↔◌, ◌≤◌, false, List, Ok, Err, None, option_map, is_some, IsNone, IfOk, IfErr, OnOk, OnErr};
ghost use Rattle.std.specs.Option.{option_copied};
ghost use Rattle.tables.specs.Tables.{put_where};
ghost use Rattle.scope_options.specs.declared.scope.Scope.TheVariants.{Global as GlobalScope, Window};
ghost use Rattle.scope_options.specs.declared.options.OptionError.TheVariants.{NoMemory};
ghost use Rattle.scope_options.specs.Scopes.{is_same_scope};
ghost use Rattle.scope_options.specs.declared.value.OptionValue.TheVariants.{Str};
ghost use Rattle.scope_options.specs.declared.setting.Setting.{Setting};
ghost use Rattle.scope_options.specs.Values.{kind_of, read_value};
ghost use Rattle.scope_options.specs.Settings.{is_at, value_at, seen_from, declared_as, cleared, without_client, without_buffer, given};
ghost use Rattle.scope_options.specs.Numbers.{number_within};
ghost use Rattle.scope_options.specs.Changes.{declare_in, declare_by, declare_typed, option_set_in, option_unset_in, IsOptionErrorDue};

use crate::changing::{is_at, new_value, place, seen_over, value_at};
use crate::numbers::number_of;
use crate::scope::{Scope, is_of_buffer, is_of_client, is_same};
use crate::setting::Setting;
use crate::value::{OptionType, OptionValue, is_same_type, kind_of, read_value};
use byte_texts::{Utf8Text, Words};
use std::alloc::{AllocError, Global};
use std::marker::Model;
use thiserror::Error;

/// Why an option isn't declared, set or unset.
#[derive(Clone, Copy, PartialEq, Eq, Debug, Error)]
pub enum OptionError {
    /// No option of this name is declared.
    #[error("no such option")]
    NoOption,
    /// The option is declared with another type.
    #[error("option exists")]
    Exists,
    /// The words are no value of the type.
    #[error("the words are no value of the option's type")]
    BadType,
    /// The words are no value that the option takes.
    #[error("bad value")]
    BadValue,
    /// What is set at the global scope can't be unset.
    #[error("a global setting can't be unset")]
    NoScope,
    /// Memory ran out.
    #[error("out of memory")]
    NoMemory,
}

impl From<AllocError> for OptionError {
    ghost from_gives = { λ _ e. e ≡ NoMemory };

    fn from(_error: AllocError) -> OptionError {
        OptionError::NoMemory
    }
}

/// All options. Contracts see what is set at each scope, in the order in which it was first set.
#[derive(Drop, Debug)]
pub struct Options {
    rows: Vec<Setting>,
}

impl Model for Options {
    ghost use Rattle.std.specs.Prelude.{List};
    ghost use Rattle.scope_options.specs.declared.setting.Setting.{Setting};

    ghost Value = { List Setting };

    ghost view = { λ o. o.rows.items };
}

impl Options {
    /// The options that are given from the start: `tabstop` 8, `indentwidth` 4, `eolformat` `lf`, `BOM` `none` and
    /// `filetype`, which is empty.
    pub fn new(alloc: Global) -> Result<Options, AllocError>
        ensures { IfOk result (λ o. o ≡ given) }
    {
        let mut rows = Vec::with_capacity(alloc, 5)?;
        rows.push(given(alloc, "tabstop", OptionValue::Int(8))?)?;
        rows.push(given(alloc, "indentwidth", OptionValue::Int(4))?)?;
        rows.push(given(alloc, "eolformat", text(alloc, "lf")?)?)?;
        rows.push(given(alloc, "BOM", text(alloc, "none")?)?)?;
        rows.push(given(alloc, "filetype", text(alloc, "")?)?)?;
        Ok(Options { rows })
    }

    /// Declares an option of a type, with a value that words give; one that exists with this type keeps its value.
    /// The errors are, in this order, `Exists` and `BadType`, and at any time `NoMemory`. They leave all as it was.
    pub fn declare(
        &mut self,
        alloc: Global,
        kind: OptionType,
        name: &str,
        value: &Words,
    ) -> Result<(), OptionError>
        ensures declares { OnOk result (declare_in kind name.now value.now self.old ≡ Ok self.new) }
        ensures refused { IfErr result (λ e. IsOptionErrorDue e (declare_in kind name.now value.now self.old)) }
        ensures err { OnErr result (self.new ≡ self.old) }
    {
        match known_type(self.rows.as_slice(), name) {
            Some(old) => declare_again(alloc, old, kind, value),
            None => self.declare_new(alloc, kind, name, value),
        }
    }

    /// Sets an option at a scope to a value that words give, or, where `add` holds, to what is seen from that scope
    /// with this value added. The errors are, in this order, `NoOption` and `BadValue`, and at any time `NoMemory`.
    /// They leave all as it was.
    pub fn set(
        &mut self,
        alloc: Global,
        scope: Scope,
        name: &str,
        value: &Words,
        add: bool,
    ) -> Result<(), OptionError>
        ensures sets { OnOk result (option_set_in scope name.now value.now add self.old ≡ Ok self.new) }
        ensures refused { IfErr result (λ e. IsOptionErrorDue e (option_set_in scope name.now value.now add self.old)) }
        ensures err { OnErr result (self.new ≡ self.old) }
    {
        let rows = self.rows.as_slice();
        let Some(global) = value_at(rows, Scope::Global, name) else {
            return Err(OptionError::NoOption);
        };
        let Some(value) = new_value(alloc, global, scope, name, value, add, rows)? else {
            return Err(OptionError::BadValue);
        };
        let name = Utf8Text::from_str(alloc, name)?;
        self.put(Setting { scope, name, value })?;
        Ok(())
    }

    /// Takes away what an option is set to at a scope. The errors are, in this order, `NoOption` and, exactly for the
    /// global scope, `NoScope`. They leave all as it was.
    pub fn unset(&mut self, scope: Scope, name: &str) -> Result<(), OptionError>
        ensures unsets { OnOk result (option_unset_in scope name.now self.old ≡ Ok self.new) }
        ensures refused { IfErr result (λ e. option_unset_in scope name.now self.old ≡ Err e) }
        ensures err { OnErr result (self.new ≡ self.old) }
    {
        if !is_declared(self.rows.as_slice(), name) {
            return Err(OptionError::NoOption);
        }
        if is_same(scope, Scope::Global) {
            return Err(OptionError::NoScope);
        }
        self.rows.retain(|row| !is_at(row, scope, name));
        Ok(())
    }

    /// Takes away all that is set at a scope, as a buffer or a window that is gone. It isn't the global one.
    pub fn clear(&mut self, scope: Scope)
        requires { is_same_scope scope GlobalScope ≡ false }
        ensures { self.new ≡ cleared scope self.old }
    {
        self.rows.retain(|row| !is_same(row.scope, scope));
    }

    /// Takes away all that is set in windows of a client, which is gone.
    pub fn clear_client(&mut self, client: u32)
        ensures { self.new ≡ without_client client self.old }
    {
        self.rows.retain(|row| !is_of_client(row.scope, client));
    }

    /// Takes away all that is set in a buffer, and in windows on it, which is gone.
    pub fn clear_buffer(&mut self, buffer: u32)
        ensures { self.new ≡ without_buffer buffer self.old }
    {
        self.rows.retain(|row| !is_of_buffer(row.scope, buffer));
    }

    /// The value of an option that counts for a client in a buffer: that of the window, else of the buffer, else the
    /// global one. None exactly where the option isn't declared.
    pub fn look(&self, buffer: u32, client: u32, name: &str) -> Option<&OptionValue>
        ensures value { option_copied result ≡ seen_from (Window client buffer) name.now self.now }
        ensures none { IsNone result ↔ (value_at GlobalScope name.now self.now ≡ None) }
    {
        self.seen(Scope::Window(client, buffer), name)
    }

    /// The value of an option that is seen from a scope outward. None exactly where the option isn't declared.
    pub fn seen(&self, scope: Scope, name: &str) -> Option<&OptionValue>
        ensures value { option_copied result ≡ seen_from scope name.now self.now }
        ensures none { IsNone result ↔ (value_at GlobalScope name.now self.now ≡ None) }
    {
        let rows = self.rows.as_slice();
        let global = value_at(rows, Scope::Global, name)?;
        Some(seen_over(global, scope, name, rows))
    }

    /// The number that an option is seen to have from a scope outward, where that is none below `low` and none above
    /// `high`; else another one, which is given.
    pub fn number_seen(&self, scope: Scope, name: &str, low: u32, high: u32, otherwise: u32) -> u32
        requires least { low ≤ otherwise }
        requires most { otherwise ≤ high }
        ensures value { result ≡ number_within low high otherwise (seen_from scope name.now self.now) }
        ensures least { low ≤ result }
        ensures most { result ≤ high }
    {
        match self.seen(scope, name) {
            None => otherwise,
            Some(value) => number_of(value, low, high).unwrap_or(otherwise),
        }
    }
}

impl Options {
    // Declares an option that isn't declared yet.
    fn declare_new(
        &mut self,
        alloc: Global,
        kind: OptionType,
        name: &str,
        words: &Words,
    ) -> Result<(), OptionError>
        ensures ok { OnOk result (declare_by kind name.now None (read_value kind words.now) self.old ≡ Ok self.new) }
        ensures refused { IfErr result (λ e. IsOptionErrorDue e (declare_by kind name.now None (read_value kind words.now) self.old)) }
        ensures err { OnErr result (self.new ≡ self.old) }
    {
        let Some(value) = read_value(alloc, kind, words)? else {
            return Err(OptionError::BadType);
        };
        let row = given(alloc, name, value)?;
        self.rows.push(row).map_err(AllocError::from)?;
        Ok(())
    }

    // Puts a row in place of the one of its scope and name, or at the end.
    fn put(&mut self, row: Setting) -> Result<(), AllocError>
        ensures ok { OnOk result (self.new ≡ put_where (is_at row.scope row.name) row self.old) }
        ensures err { OnErr result (self.new ≡ self.old) }
    {
        let at = place(self.rows.as_slice(), row.scope, row.name.as_str());
        if at < self.rows.len() {
            self.rows[at] = row;
            return Ok(());
        }
        self.rows.push(row)?;
        Ok(())
    }
}

// Whether an option is declared.
fn is_declared(rows: &[Setting], name: &str) -> bool
    ensures { result ≡ is_some (value_at GlobalScope name.now rows.now) }
{
    value_at(rows, Scope::Global, name).is_some()
}

// The type of an option, if it is declared.
fn known_type(rows: &[Setting], name: &str) -> Option<OptionType>
    ensures { result ≡ option_map kind_of (value_at GlobalScope name.now rows.now) }
{
    match value_at(rows, Scope::Global, name) {
        Some(value) => Some(kind_of(value)),
        None => None,
    }
}

// Declares an option that is declared with a type already, which changes nothing.
fn declare_again(
    alloc: Global,
    old: OptionType,
    kind: OptionType,
    words: &Words,
) -> Result<(), OptionError>
    ensures ok { OnOk result ((rows : List Setting) → declare_typed old kind (read_value kind words.now) rows ≡ Ok rows) }
    ensures refused { IfErr result (λ e. (rows : List Setting) → IsOptionErrorDue e (declare_typed old kind (read_value kind words.now) rows)) }
{
    if !is_same_type(old, kind) {
        return Err(OptionError::Exists);
    }
    if read_value(alloc, kind, words)?.is_none() {
        return Err(OptionError::BadType);
    }
    Ok(())
}

// The row of an option at the global scope.
fn given(alloc: Global, name: &str, value: OptionValue) -> Result<Setting, AllocError>
    ensures { IfOk result (λ row. row ≡ declared_as name.now value) }
{
    Ok(Setting {
        scope: Scope::Global,
        name: Utf8Text::from_str(alloc, name)?,
        value,
    })
}

// The value of a text.
fn text(alloc: Global, value: &str) -> Result<OptionValue, AllocError>
    ensures { IfOk result (λ v. v ≡ Str value.now) }
{
    Ok(OptionValue::Str(Utf8Text::from_str(alloc, value)?))
}
