//! Scripts as they are written.
ghost use Rattle.std.specs.Prelude.{◌≡◌, map, IfOk};
ghost use Rattle.sim_script.specs.LineWords.{Gives};
ghost use Rattle.sim_script.specs.Scripts.{lines_of, read_line, script_of, words_of, Reads};

use crate::bad_line::{LineError, ScriptError};
use crate::line::Line;
use crate::line_words::line_of;
use std::alloc::{AllocError, Global};

/// The words of a line, between single spaces.
fn words_of<'a>(alloc: Global, line: &'a str) -> Result<Vec<&'a str>, AllocError>
    ensures { IfOk result (λ words. map (λ word. word.now) words.items ≡ words_of line.now) }
{
    line.split(' ').collect(alloc)
}

/// The lines of a text.
fn lines_of<'a>(alloc: Global, text: &'a str) -> Result<Vec<&'a str>, AllocError>
    ensures { IfOk result (λ lines. map (λ line. line.now) lines.items ≡ lines_of text.now) }
{
    text.split('\n').collect(alloc)
}

/// The line that is written so.
fn read_line(alloc: Global, text: &str) -> Result<Line, LineError>
    ensures { Gives (λ line. line) result (read_line text.now) }
{
    let words = words_of(alloc, text)?;
    line_of(alloc, words.as_slice())
}

/// The lines of a script, which stand one behind another, each but the last with a line feed behind
/// it. Their words are separated by one space. Empty lines are passed over, and not counted. The first
/// bad line is refused.
pub fn parse(alloc: Global, text: &str) -> Result<Vec<Line>, ScriptError>
    ensures { Reads (λ lines. lines.items) result (script_of text.now) }
{
    let texts = lines_of(alloc, text)?;
    let mut lines = Vec::new(alloc);
    'lines: for text in texts.as_slice() {
        if text.is_empty() {
            continue;
        }
        match read_line(alloc, text) {
            Ok(line) => lines.push(line)?,
            Err(LineError::Bad(fault)) => {
                let line = lines.len() + 1;
                return Err(ScriptError::Bad { line, fault });
            }
            Err(LineError::NoMemory) => return Err(ScriptError::NoMemory),
        }
    }
    Ok(lines)
}
