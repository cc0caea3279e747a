//! Reading the text of one script.

ghost use Rattle.std.specs.Prelude.{◌≡◌, ◌++◌, List, IfOk, IfErr, OnOk};
ghost use Rattle.script_text.specs.declared.script.ScriptLine.{ScriptLine};
ghost use Rattle.script_text.specs.Texts.{LineHolds, TextHolds, IsLineFault, IsTextFault};

use crate::{Script, ScriptLine, TextsFault, next_line, read_line};
use std::alloc::Global;

/// The greatest line number that a script stores.
const LAST_NUMBER: u64 = 4_294_967_295;

fn add_line(
    alloc: Global,
    lines: &mut Vec<ScriptLine>,
    script: u32,
    number: u64,
    line: &[u8],
) -> Result<(), TextsFault>
    ensures line { OnOk result ((own : List ScriptLine) × (lines.new.items ≡ lines.old.items ++ own) × LineHolds number line.now own) }
    ensures fault { IfErr result (IsLineFault script number line.now) }
{
    if line.is_empty() {
        return Ok(());
    }
    let Some(command) = read_line(alloc, line)? else {
        return Err(TextsFault::BadLine {
            script,
            line: number,
        });
    };
    let line = number.min(LAST_NUMBER) as u32;
    match lines.push(ScriptLine { line, command }) {
        Ok(()) => Ok(()),
        Err(_) => Err(TextsFault::Memory),
    }
}

/// Reads a text as script number `script`: its non-empty lines in order, with their numbers.
///
/// Each line ends with an LF; the last one may lack it. Numbers count from 1, empty lines included;
/// 4,294,967,295 also represents every greater number.
///
/// `BadLine` at the first line that is neither empty nor a command; `Memory` if memory runs out before that
/// line.
pub fn read_text(alloc: Global, script: u32, text: &[u8]) -> Result<Script, TextsFault>
    ensures script { IfOk result (TextHolds text.now) }
    ensures fault { IfErr result (IsTextFault script text.now) }
{
    let mut lines = Vec::new(alloc);
    let mut rest = text;
    let mut number: u64 = 0;
    while let Some((line, behind)) = next_line(rest) {
        number += 1;
        add_line(alloc, &mut lines, script, number, line)?;
        rest = behind;
    }
    Ok(Script::from_vec(lines))
}
