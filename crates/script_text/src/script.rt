//! The commands of a script, with their line numbers.

ghost use Rattle.std.specs.Prelude.{◌≡◌};

use crate::Command;
use std::marker::Model;

/// A line that is not empty.
#[derive(Drop)]
pub struct ScriptLine {
    /// The line's number, from 1; empty lines count.
    pub line: u32,
    /// The line's command.
    pub command: Command,
}

/// A script, seen in contracts as its non-empty lines in order.
#[derive(Drop)]
pub struct Script {
    lines: Vec<ScriptLine>,
}

impl Model for Script {
    ghost use Rattle.std.specs.Prelude.{List};
    ghost use Rattle.script_text.specs.declared.script.ScriptLine.{ScriptLine};

    ghost Value = { List ScriptLine };

    ghost view = { λ s. s.lines.items };
}

impl Script {
    /// The script of these lines. Takes no memory.
    pub fn from_vec(lines: Vec<ScriptLine>) -> Script
        ensures { result ≡ lines.items }
    {
        Script { lines }
    }

    /// The non-empty lines in order.
    pub fn lines(&self) -> &[ScriptLine]
        ensures { result.now ≡ self.now }
    {
        &self.lines
    }
}
