//! The flat text of a buffer, and the way between offsets and coordinates by a count from the top. The calls cost the
//! lines that they go over, so they are for tests, for writing a buffer out and for other rare uses.

ghost use Rattle.std.specs.Prelude.{◌≡◌, ◌≢◌, ℕ, ◌+◌, ◌<◌, ◌≤◌, ◌++◌, length, slice_range, IfOk, OnOk, string_bytes, encode_utf8_all};
ghost use Rattle.text_model.specs.Texts.{IsPlace, IsPlaceOrEnd, offset, coord_at};

use crate::lines::Lines;
use kak_text::{Coord, Text};
use std::alloc::{AllocError, Global};

impl Lines {
    /// The text.
    pub fn to_text(&self, alloc: Global) -> Result<Text, AllocError>
        ensures { IfOk result (λ text. text ≡ self.now) }
    {
        let mut all = Vec::with_capacity(alloc, self.len())?;
        for n in 0..self.line_count() {
            self.line(n).push_onto(&mut all)?;
        }
        Ok(Text::of_vec(all))
    }

    /// The offset of a place or of the end.
    pub fn offset_of(&self, at: Coord) -> usize
        requires { IsPlaceOrEnd self.now at }
        ensures { result ≡ offset self.now at }
    {
        let mut start = 0;
        for n in 0..at.line as usize {
            start += self.line(n).len();
        }
        start + at.column as usize
    }

    /// The coordinate of an offset up to the length.
    pub fn coord_of(&self, place: usize) -> Coord
        requires { place ≤ length self.now }
        ensures value { result ≡ coord_at self.now place }
        ensures offset { offset self.now result ≡ place }
        ensures end { IsPlaceOrEnd self.now result }
        ensures inside { place < length self.now → IsPlace self.now result }
    {
        let mut rest = place;
        for n in 0..self.line_count() {
            let len = self.line(n).len();
            if rest < len {
                return Coord {
                    line: n as u32,
                    column: rest as u32,
                };
            }
            rest -= len;
        }
        Coord {
            line: self.line_count() as u32,
            column: 0,
        }
    }

    /// The characters from a place to before another, or to the end. It costs what it gives.
    pub fn chars(&self, alloc: Global, from: Coord, to: Coord) -> Result<Vec<char>, AllocError>
        requires from { IsPlaceOrEnd self.now from }
        requires to { IsPlaceOrEnd self.now to }
        requires ordered { offset self.now from ≤ offset self.now to }
        ensures { IfOk result (λ chars. chars.items ≡ slice_range self.now (offset self.now from) (offset self.now to)) }
    {
        let mut chars = Vec::new(alloc);
        let mut start = from.column as usize;
        for n in from.line..to.line {
            self.line(n as usize).behind(start).push_onto(&mut chars)?;
            start = 0;
        }
        if start < to.column as usize {
            self.line(to.line as usize)
                .between(start, to.column as usize)
                .push_onto(&mut chars)?;
        }
        Ok(chars)
    }

    /// Adds the characters from a place to before another, or to the end, to a string. It costs what it adds. Want of memory
    /// leaves some of it added.
    pub fn push_slice(&self, text: &mut String, from: Coord, to: Coord) -> Result<(), AllocError>
        requires from { IsPlaceOrEnd self.now from }
        requires to { IsPlaceOrEnd self.now to }
        requires ordered { offset self.now from ≤ offset self.now to }
        ensures { OnOk result (string_bytes text.new ≡ string_bytes text.old ++ encode_utf8_all (slice_range self.now (offset self.now from) (offset self.now to))) }
    {
        let mut start = from.column as usize;
        for n in from.line..to.line {
            self.line(n as usize).behind(start).push_utf8(text)?;
            start = 0;
        }
        let column = to.column as usize;
        if column <= start {
            return Ok(());
        }
        self.line(to.line as usize)
            .between(start, column)
            .push_utf8(text)
    }

    /// The characters from a place to before another, or to the end, as a string. It costs what it gives.
    pub fn slice(&self, alloc: Global, from: Coord, to: Coord) -> Result<String, AllocError>
        requires from { IsPlaceOrEnd self.now from }
        requires to { IsPlaceOrEnd self.now to }
        requires ordered { offset self.now from ≤ offset self.now to }
        ensures { IfOk result (λ text. string_bytes text ≡ encode_utf8_all (slice_range self.now (offset self.now from) (offset self.now to))) }
    {
        let mut text = String::new(alloc);
        self.push_slice(&mut text, from, to)?;
        Ok(text)
    }
}
