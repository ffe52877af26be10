//! Steps through a text, over the calls that reach its fields.

ghost use Rattle.std.specs.Prelude.{◌≡◌, ℕ, ◌+◌, ◌-◌, ◌<◌, ◌≤◌, ◌↔◌, length, slice_index, IfSome, IsNone};
ghost use Rattle.text_model.specs.Texts.{IsStored, IsPlace, offset, line_count, nth_line, last_place};

use crate::lines::Lines;
use kak_text::Coord;

impl Lines {
    /// The character at a place.
    pub fn char_at(&self, at: Coord) -> char
        requires { IsPlace self.now at }
        ensures { result ≡ slice_index self.now (offset self.now at) }
    {
        self.line(at.line as usize).at(at.column as usize)
    }

    /// The place of the next character; none at the last one.
    pub fn next(&self, at: Coord) -> Option<Coord>
        requires { IsPlace self.now at }
        ensures none { IsNone result ↔ (offset self.now at ≡ last_place self.now) }
        ensures next { IfSome result (λ b. IsPlace self.now b × (offset self.now b ≡ offset self.now at + 1)) }
    {
        let line = self.line(at.line as usize);
        if at.column as usize + 1 < line.len() {
            return Some(Coord {
                line: at.line,
                column: at.column + 1,
            });
        }
        if at.line as usize + 1 < self.line_count() {
            return Some(Coord {
                line: at.line + 1,
                column: 0,
            });
        }
        None
    }

    /// The place of the character before; none at the first one.
    pub fn prev(&self, at: Coord) -> Option<Coord>
        requires { IsPlace self.now at }
        ensures none { IsNone result ↔ (offset self.now at ≡ 0) }
        ensures prev { IfSome result (λ b. IsPlace self.now b × (offset self.now b + 1 ≡ offset self.now at)) }
    {
        if at.column > 0 {
            return Some(Coord {
                line: at.line,
                column: at.column - 1,
            });
        }
        if at.line > 0 {
            return Some(self.line_end(at.line - 1));
        }
        None
    }

    /// The place of a line's newline, by the line's number.
    pub fn line_end(&self, n: u32) -> Coord
        requires { n < line_count self.now }
        ensures line { result.line ≡ n }
        ensures place { IsPlace self.now result }
        ensures last { result.column + 1 ≡ length (nth_line self.now n) }
    {
        let column = self.line(n as usize).len() - 1;
        Coord {
            line: n,
            column: column as u32,
        }
    }

    /// The place of the last character.
    pub fn last_place(&self) -> Coord
        ensures place { IsPlace self.now result }
        ensures last { offset self.now result ≡ last_place self.now }
        ensures valid { IsStored self.now }
    {
        let line = self.line_count() - 1;
        self.line_end(line as u32)
    }
}
