//! The registers of a session.

ghost use Rattle.std.specs.Prelude.{◌≡◌, ◌↔◌, [], false, None, length, IsNone, IfErr, IfSome, OnOk, OnErr, nat_le};
ghost use Rattle.tables.specs.Tables.{place_where, put_where};
ghost use Rattle.kak_registers.specs.Contents.{is_register_row, row_of_register, strings_of, set_in, nth_of, char_count};
ghost use Rattle.std.specs.Str.{chars};
ghost use Rattle.kak_registers.specs.Names.{is_settable};
ghost use Rattle.kak_registers.specs.Refusals.{register_refusal, IsRegisterErrorDue};

use crate::names::{RegisterError, is_read_only, is_settable};
use crate::row::{MAX_REGISTER_CHARS, Register};
use byte_texts::Words;
use std::alloc::{AllocError, Global};
use std::marker::Model;

/// All registers. Contracts see the rows of those that were set, in the order in which they were first set.
#[derive(Drop, Debug)]
pub struct Registers {
    rows: Vec<Register>,
    // no strings, lent where a register holds none
    nothing: Words,
}

impl Model for Registers {
    ghost use Rattle.std.specs.Prelude.{◌≡◌, [], List};
    ghost use Rattle.kak_registers.specs.declared.row.Register.{Register};

    ghost Value = { List Register };

    ghost view = { λ r. r.rows.items };

    ghost invariant = { λ r. r.nothing ≡ [] };
}

impl Registers {
    /// Registers of which none was set; takes no memory.
    pub fn new(alloc: Global) -> Registers
        ensures { result ≡ [] }
    {
        Registers {
            rows: Vec::new(alloc),
            nothing: Words::new(alloc),
        }
    }

    /// Has a register hold a copy of these strings; setting `_` changes nothing. An error is the first that holds of
    /// `NoRegister`, `ReadOnly` and `RegisterFull`, or, where none does, `NoMemory`. It leaves all as it was.
    pub fn set(&mut self, alloc: Global, name: char, values: &Words) -> Result<(), RegisterError>
        ensures sets { OnOk result (self.new ≡ set_in name values.now self.old) }
        ensures granted { OnOk result (register_refusal name values.now ≡ None) }
        ensures refused { IfErr result (λ e. IsRegisterErrorDue e (register_refusal name values.now)) }
        ensures err { OnErr result (self.new ≡ self.old) }
    {
        check(name, values)?;
        if name == '_' {
            return Ok(());
        }
        self.put(name, values.copy(alloc)?)?;
        Ok(())
    }

    /// The same with strings that are taken over, and not copied.
    pub fn keep(&mut self, name: char, values: Words) -> Result<(), RegisterError>
        ensures sets { OnOk result (self.new ≡ set_in name values self.old) }
        ensures granted { OnOk result (register_refusal name values ≡ None) }
        ensures refused { IfErr result (λ e. IsRegisterErrorDue e (register_refusal name values)) }
        ensures err { OnErr result (self.new ≡ self.old) }
    {
        check(name, &values)?;
        if name == '_' {
            return Ok(());
        }
        self.put(name, values)?;
        Ok(())
    }

    /// The strings of a register; None exactly where `set` refuses its name.
    pub fn get(&self, name: char) -> Option<&Words>
        ensures none { IsNone result ↔ (is_settable name ≡ false) }
        ensures some { IfSome result (λ w. w.now ≡ strings_of name self.now) }
    {
        if !is_settable(name) {
            return None;
        }
        Some(self.strings(name))
    }

    /// The n-th string of a register from 0, or its last, or the empty string where it has none.
    pub fn nth(&self, name: char, n: usize) -> &str
        ensures { result.now ≡ nth_of n (strings_of name self.now) }
    {
        let strings = self.strings(name);
        match strings.len() {
            0 => "",
            len => strings.get(n.min(len - 1)),
        }
    }
}

impl Registers {
    // Puts a row in place of the one of its name, or at the end. An `Err` leaves all as it was.
    fn put(&mut self, name: char, values: Words) -> Result<(), AllocError>
        ensures ok { OnOk result (self.new ≡ put_where (is_register_row name) (row_of_register name values) self.old) }
        ensures err { OnErr result (self.new ≡ self.old) }
    {
        let at = place(self.rows.as_slice(), name);
        let row = Register { name, values };
        if at < self.rows.len() {
            self.rows[at] = row;
            return Ok(());
        }
        self.rows.push(row)?;
        Ok(())
    }

    // The strings of any name, none where it names no register that was set.
    fn strings(&self, name: char) -> &Words
        ensures { result.now ≡ strings_of name self.now }
    {
        if name == '_' {
            return &self.nothing;
        }
        let at = place(self.rows.as_slice(), name);
        if at < self.rows.len() {
            return &self.rows[at].values;
        }
        &self.nothing
    }
}

// The place of the row of a name, or how many rows there are where none has it.
fn place(rows: &[Register], name: char) -> usize
    ensures { result ≡ place_where (is_register_row name) rows.now }
{
    for (i, row) in rows.iter().enumerate() {
        if row.name == name {
            return i;
        }
    }
    rows.len()
}

// How many characters a text has.
fn char_len(text: &str) -> usize
    ensures { result ≡ length (chars text.now) }
{
    if text.is_ascii() {
        return text.len();
    }
    text.chars().count()
}

// Whether a register may hold these strings.
fn fits(values: &Words) -> bool
    ensures { result ≡ nat_le (char_count values.now) MAX_REGISTER_CHARS }
{
    let mut room = MAX_REGISTER_CHARS;
    for n in 0..values.len() {
        let count = char_len(values.get(n));
        if count > room {
            return false;
        }
        room -= count;
    }
    true
}

// Refuses what can't be set, before any memory is taken.
fn check(name: char, values: &Words) -> Result<(), RegisterError>
    ensures granted { OnOk result (register_refusal name values.now ≡ None) }
    ensures refused { IfErr result (λ e. IsRegisterErrorDue e (register_refusal name values.now)) }
{
    if is_read_only(name) {
        return Err(RegisterError::ReadOnly(name));
    }
    if !is_settable(name) {
        return Err(RegisterError::NoRegister(name));
    }
    if !fits(values) {
        return Err(RegisterError::RegisterFull);
    }
    Ok(())
}
