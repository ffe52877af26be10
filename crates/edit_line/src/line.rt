//! The line, and what keys do to it.

ghost use Rattle.std.specs.Prelude.{◌≡◌, ◌+◌, ◌-◌, ◌≤◌, ◌++◌, [], length, take, drop, OnOk, OnErr};
ghost use Rattle.edit_line.specs.Halves.{empty, whole};
ghost use Rattle.edit_line.specs.Edits.{put_before_cursor, erased_before, erased_at, gone_left, gone_right, gone_home, gone_to_end};

use std::alloc::{AllocError, Global};
use std::marker::Model;

/// A line of characters with a cursor, which stands on one of them or behind the last. Contracts see what stands before the
/// cursor and what stands from it on. No move takes memory.
#[derive(Drop, Debug)]
pub struct EditLine {
    chars: Vec<char>,
    // how many characters stand before the cursor
    at: usize,
}

impl Model for EditLine {
    ghost use Rattle.std.specs.Prelude.{◌≤◌, length, take, drop};
    ghost use Rattle.edit_line.specs.Halves.{Halves};

    ghost Value = { Halves };

    ghost view = { λ l. record { before = take l.at l.chars.items; behind = drop l.at l.chars.items } };

    ghost invariant = { λ l. l.at ≤ length l.chars.items };
}

// Moves the last so many characters before the others from a place on.
fn turn_right(row: &mut [char], from: usize, more: usize)
    requires { from + more ≤ length row.old }
    ensures { row.new ≡ take from row.old ++ (drop (length row.old - more) row.old ++ take (length row.old - more - from) (drop from row.old)) }
{
    row[from..].rotate_right(more);
}

// Puts characters in at a place; after an error the row is as it was.
fn put_at(row: &mut Vec<char>, at: usize, chars: &[char]) -> Result<(), AllocError>
    requires { at ≤ length row.old.items }
    ensures ok { OnOk result (row.new.items ≡ take at row.old.items ++ (chars.now ++ drop at row.old.items)) }
    ensures err { OnErr result (row.new.items ≡ row.old.items) }
{
    row.extend_from_slice(chars)?;
    turn_right(row.as_mut_slice(), at, chars.len());
    Ok(())
}

// Takes a character out.
fn take_out(row: &mut Vec<char>, at: usize)
    requires { at + 1 ≤ length row.old.items }
    ensures { row.new.items ≡ take at row.old.items ++ drop (at + 1) row.old.items }
{
    drop(row.drain(at..at + 1));
}

impl EditLine {
    /// No characters; takes no memory.
    pub fn new(alloc: Global) -> EditLine
        ensures { result ≡ empty }
    {
        EditLine {
            chars: Vec::new(alloc),
            at: 0,
        }
    }

    /// What stands before the cursor.
    pub fn before(&self) -> &[char]
        ensures { result.now ≡ self.now.before }
    {
        &self.chars.as_slice()[..self.at]
    }

    /// What stands from the cursor on.
    pub fn behind(&self) -> &[char]
        ensures { result.now ≡ self.now.behind }
    {
        &self.chars.as_slice()[self.at..]
    }

    /// The whole line.
    pub fn whole(&self) -> &[char]
        ensures { result.now ≡ whole self.now }
    {
        self.chars.as_slice()
    }

    /// All its characters; takes no memory.
    pub fn into_vec(self) -> Vec<char>
        ensures { result.items ≡ whole self }
    {
        self.chars
    }

    /// Puts characters in before the cursor. An `Err` leaves the line.
    pub fn put(&mut self, chars: &[char]) -> Result<(), AllocError>
        ensures ok { OnOk result (self.new ≡ put_before_cursor chars.now self.old) }
        ensures err { OnErr result (self.new ≡ self.old) }
    {
        put_at(&mut self.chars, self.at, chars)?;
        self.at += chars.len();
        Ok(())
    }

    /// Erases the character before the cursor, where there is one.
    pub fn erase_before(&mut self)
        ensures { self.new ≡ erased_before self.old }
    {
        if self.at > 0 {
            self.at -= 1;
            take_out(&mut self.chars, self.at);
        }
    }

    /// Erases the character at the cursor, where there is one.
    pub fn erase_at(&mut self)
        ensures { self.new ≡ erased_at self.old }
    {
        if self.at < self.chars.len() {
            take_out(&mut self.chars, self.at);
        }
    }

    /// The cursor goes back by one character, where there is one.
    pub fn left(&mut self)
        ensures { self.new ≡ gone_left self.old }
    {
        self.at = self.at.saturating_sub(1);
    }

    /// The cursor goes on by one character, where there is one.
    pub fn right(&mut self)
        ensures { self.new ≡ gone_right self.old }
    {
        if self.at < self.chars.len() {
            self.at += 1;
        }
    }

    /// The cursor goes to the first character.
    pub fn home(&mut self)
        ensures { self.new ≡ gone_home self.old }
    {
        self.at = 0;
    }

    /// The cursor goes behind the last character.
    pub fn end(&mut self)
        ensures { self.new ≡ gone_to_end self.old }
    {
        self.at = self.chars.len();
    }
}
