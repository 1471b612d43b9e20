//! Where something stands in a script's text.

ghost use Rattle.std.specs.Prelude.{◌≡◌, ◌≢◌, ◌==◌, IsTrue, ◌↔◌, Some};
ghost use Rattle.rhai_tree.specs.Position.{at, none, number_of, position_text};

use std::fmt;
use std::fmt::{Display, Formatter, Write};

/// Where something stands in a script's text: a line and a position in it, both counted from 1, or
/// nowhere. Ports upstream's `Position`.
#[derive(Clone, Copy, Debug, PartialEq, Eq)]
pub struct Position {
    line: u16,
    pos: u16,
}

impl Position {
    /// No position.
    pub const NONE: Position = Position { line: 0, pos: 0 };

    /// Makes the position at a line and a position in it.
    pub fn new(line: u16, position: u16) -> Position
        requires line { line ≢ 0 }
        requires position { position ≢ 0 }
        ensures { result ≡ at line position }
    {
        Position {
            line,
            pos: position,
        }
    }

    /// Tells whether this is no position.
    pub fn is_none(self) -> bool
        ensures { result ≡ (self.line == 0) }
    {
        self.line == 0
    }

    /// Returns the line, counted from 1, or `None` for no position.
    pub fn line(self) -> Option<u16>
        ensures { result ≡ number_of self.line }
    {
        if self.line == 0 {
            None
        } else {
            Some(self.line)
        }
    }

    /// Returns the position in the line, counted from 1, or `None` for no position.
    pub fn position(self) -> Option<u16>
        ensures { result ≡ number_of self.pos }
    {
        if self.pos == 0 { None } else { Some(self.pos) }
    }
}

/// `line 1, position 3`, or `none`. In the manner of upstream's `Display` of `Position`.
impl Display for Position {
    ghost output = { λ p. Some (position_text p) };

    fn fmt<W: Write>(&self, f: &mut Formatter<W>) -> fmt::Result {
        if self.line == 0 {
            f.write_str("none")
        } else {
            let Position { line, pos } = *self;
            write!(f, "line {line}, position {pos}")
        }
    }
}
