//! A reader of lines.

ghost use Rattle.std.specs.Prelude.{◌≡◌, ◌==◌, ◌<◌, ◌≤◌, ◌+◌, [], length, position, None, IfSome, IsTrue, false, if◌then◌else◌};
ghost use Rattle.line_reading.specs.Pieces.{Moves};
ghost use Rattle.client_links.specs.Wires.{TellsNoMore};
ghost use Rattle.line_reading.specs.declared.limits.TheConstants.{MAX_INPUT, MAX_PIECE};
ghost use Rattle.line_reading.specs.Reading.{ReadsCounted, FaultIsTold};
ghost use Rattle.line_reading.specs.Hearing.{HearsLine, ReadFaultIsTold};

use crate::limits::{MAX_INPUT, MAX_PIECE};
use crate::pieces::TakenPiece;
use client_links::{Heard, Link};
use kak_ports::{Source, Took};
use std::alloc::{AllocError, Global};
use std::marker::Model;
use std::sync::Wait;

/// What came of the next line.
#[derive(Clone, Copy, PartialEq, Eq, Debug)]
pub enum NextLine {
    /// A line came, and its newline.
    Line,
    /// The input ended behind a last line without a newline, which isn't empty.
    Last,
    /// The input ended, and nothing is left of it.
    Ended,
    /// The input failed. What has come of the line is kept.
    ReadFault,
    /// All bytes that may be taken were taken, and the line isn't whole. What has come of it is kept.
    Full,
}

/// What came of the next line of a link.
#[derive(Clone, Copy, PartialEq, Eq, Debug)]
pub enum Came {
    /// A line came, and its newline.
    Line,
    /// The link ended behind a last line without a newline, which isn't empty.
    Last,
    /// The link ended, and nothing is left of what it said.
    Ended,
    /// No more has come yet. What has come of the line is kept.
    Idle,
    /// Receiving failed. What has come of the line is kept.
    ReadFault,
    /// All bytes that may be taken were taken, and the line isn't whole. What has come of it is kept.
    Full,
}

/// Reads the lines of one input, each at most once. No line has its newline.
#[derive(Drop)]
pub struct LineReader {
    piece: TakenPiece,
    line: Vec<u8>,
    // whether the line was given out, and the next one begins anew
    given: bool,
    taken: u64,
}

impl Model for LineReader {
    ghost use Rattle.std.specs.Prelude.{[], ◌++◌, ◌≤◌, if◌then◌else◌};
    ghost use Rattle.session_turns.specs.Lines.{HasNoNewline};
    ghost use Rattle.line_reading.specs.declared.limits.TheConstants.{MAX_INPUT};
    ghost use Rattle.line_reading.specs.Reading.{Reading};

    ghost Value = { Reading };

    ghost view = { λ r. record { taken = r.taken; pending = (if r.given then [] else r.line.items) ++ r.piece; line = r.line.items } };

    ghost invariant = { λ r. (r.taken ≤ MAX_INPUT) × HasNoNewline r.line.items };
}

// Where a line was given out, the next one begins.
fn begin_line(line: &mut Vec<u8>, given: bool)
    ensures { line.new.items ≡ (if given then [] else line.old.items) }
{
    if given {
        line.clear();
    }
}

// Where the first newline stands.
fn newline_at(bytes: &[u8]) -> Option<usize>
    ensures place { result ≡ position (λ b. b == 10) bytes.now }
    ensures inside { IfSome result (λ n. n < length bytes.now) }
{
    bytes.iter().position(|b| *b == b'\n')
}

// Moves the bytes before the first newline behind a line, and leaves the newline out. Without a newline all bytes are
// moved. Tells whether there was one.
fn move_line(line: &mut Vec<u8>, piece: &mut TakenPiece) -> Result<bool, AllocError>
    ensures { Moves result line.old.items line.new.items piece.old piece.new }
{
    let bytes = piece.as_slice();
    match newline_at(bytes) {
        Some(count) => {
            line.extend_from_slice(&bytes[..count])?;
            piece.skip(count + 1);
            Ok(true)
        }
        None => {
            line.extend_from_slice(bytes)?;
            let count = bytes.len();
            piece.skip(count);
            Ok(false)
        }
    }
}

// How many bytes may be taken at once behind those that were taken, if any may be.
fn room_behind(taken: u64) -> Option<usize>
    requires { taken ≤ MAX_INPUT }
    ensures some { IfSome result (λ room. (0 < room) × (room ≤ MAX_PIECE) × (taken + room ≤ MAX_INPUT)) }
    ensures none { result ≡ None → taken ≡ MAX_INPUT }
{
    let room = (MAX_INPUT - taken).min(MAX_PIECE) as usize;
    if room == 0 { None } else { Some(room) }
}

// Whether a line has no byte.
fn is_empty(line: &Vec<u8>) -> bool
    ensures none { IsTrue result → line.now.items ≡ [] }
    ensures some { result ≡ false → 0 < length line.now.items }
{
    line.is_empty()
}

impl LineReader {
    /// A reader that has taken nothing.
    pub fn new(alloc: Global) -> LineReader
        ensures taken { result.taken ≡ 0 }
        ensures pending { result.pending ≡ [] }
        ensures line { result.line ≡ [] }
    {
        LineReader {
            piece: TakenPiece::new(),
            line: Vec::new(alloc),
            given: false,
            taken: 0,
        }
    }

    /// The line that the last call of `next` told, without its newline.
    pub fn line(&self) -> &[u8]
        ensures { result.now ≡ self.now.line }
    {
        self.line.as_slice()
    }

    /// Reads the next line. Where memory is wanting, nothing that was taken is lost.
    pub fn next<I: Source>(&mut self, source: &mut I) -> Result<NextLine, AllocError>
        ensures reads { ReadsCounted result self.old self.new (I.inlet source.old) (I.inlet source.new) }
        ensures fault { FaultIsTold result (I.inlet source.old) (I.inlet source.new) }
        ensures most { (I.inlet source.new).most ≡ (I.inlet source.old).most }
    {
        begin_line(&mut self.line, self.given);
        self.given = false;
        'pieces: loop {
            if move_line(&mut self.line, &mut self.piece)? {
                self.given = true;
                return Ok(NextLine::Line);
            }
            let Some(room) = room_behind(self.taken) else {
                return Ok(NextLine::Full);
            };
            match self.piece.fill(source, room) {
                Took::Got(count) => self.taken += count as u64,
                Took::End if is_empty(&self.line) => return Ok(NextLine::Ended),
                Took::End => {
                    self.given = true;
                    return Ok(NextLine::Last);
                }
                Took::Failed => return Ok(NextLine::ReadFault),
            }
        }
    }

    /// Hears the next line of a link. Where memory is wanting, nothing that was received is lost.
    pub fn hear<R: Wait, L: Link>(&mut self, rt: &R, link: &mut L) -> Result<Came, AllocError>
        ensures hears { HearsLine result self.old self.new (L.wire link.old) (L.wire link.new) }
        ensures fault { ReadFaultIsTold result (L.wire link.old) (L.wire link.new) }
        ensures sent { (L.wire link.new).outlet ≡ (L.wire link.old).outlet }
        ensures told { TellsNoMore (L.wire link.old) (L.wire link.new) }
    {
        begin_line(&mut self.line, self.given);
        self.given = false;
        'pieces: loop {
            if move_line(&mut self.line, &mut self.piece)? {
                self.given = true;
                return Ok(Came::Line);
            }
            let Some(room) = room_behind(self.taken) else {
                return Ok(Came::Full);
            };
            match self.piece.hear(rt, link, room) {
                Heard::Got(count) => self.taken += count as u64,
                Heard::End if is_empty(&self.line) => return Ok(Came::Ended),
                Heard::End => {
                    self.given = true;
                    return Ok(Came::Last);
                }
                Heard::Idle => return Ok(Came::Idle),
                Heard::Failed => return Ok(Came::ReadFault),
            }
        }
    }
}
