//! A connection's input, read to its end and played line by line.

ghost use Rattle.std.specs.Prelude.{◌≡◌, List, [], false};
ghost use Rattle.key_names.specs.declared.key.Key.{Key};
ghost use Rattle.session_lines.specs.Connections.{Plays};
ghost use Rattle.session_lines.specs.Reading.{FaultIs};
ghost use Rattle.session_lines.specs.Serving.{service};
ghost use Rattle.session_lines.specs.Stops.{IsReady, Stays, Causes, StaysWhole};

use crate::playing::Stop;
use crate::turns::play_line;
use kak_ports::{Sink, Source};
use line_reading::{LineReader, NextLine};
use requests::Reader;
use session_events::Seat;
use std::alloc::Global;

/// How the reading of an input ended.
#[derive(Clone, Copy, PartialEq, Eq, Debug)]
pub enum InputEnd {
    /// The client may leave; nothing more was read.
    Left,
    /// The input ended.
    Ended,
    /// The input failed.
    ReadFault,
    /// All bytes that may be taken were taken, and the input hadn't ended before.
    Full,
}

/// Plays the lines of an input one after another, a last part without a newline too where the input has ended. The next
/// line is read where the client stays and nothing stopped.
pub fn play_input<Q: Reader, S: Seat, I: Source, K: Sink>(
    alloc: Global,
    seat: &mut S,
    source: &mut I,
    sink: &mut K,
    out: &mut Vec<u8>,
) -> Result<InputEnd, Stop>
    requires { IsReady (S.seated seat.old) }
    ensures stays { Stays (S.seated seat.old) (S.seated seat.new) }
    ensures kept { S.kept seat.new ≡ S.kept seat.old }
    ensures whole { StaysWhole result (S.seated seat.old).mark (S.seated seat.new).mark }
    ensures plays { (opens : List Key) → Plays false [] (service S.gives Q.reads opens) (S.seated seat.old) (S.seated seat.new) (K.outlet sink.old) (K.outlet sink.new) (I.inlet source.old) (I.inlet source.new) result }
    ensures fault { FaultIs result (I.inlet source.old) (I.inlet source.new) }
    ensures cause { Causes result (S.seated seat.new) (K.outlet sink.old) (K.outlet sink.new) }
{
    let mut reader = LineReader::new(alloc);
    'lines: loop {
        match reader.next(source)? {
            NextLine::Line => {
                if play_line::<Q, S, K>(alloc, seat, sink, out, reader.line())? {
                    return Ok(InputEnd::Left);
                }
            }
            NextLine::Last => {
                let leaving = play_line::<Q, S, K>(alloc, seat, sink, out, reader.line())?;
                if leaving {
                    return Ok(InputEnd::Left);
                }
                return Ok(InputEnd::Ended);
            }
            NextLine::Ended => return Ok(InputEnd::Ended),
            NextLine::ReadFault => return Ok(InputEnd::ReadFault),
            NextLine::Full => return Ok(InputEnd::Full),
        }
    }
}
