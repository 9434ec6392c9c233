//! The lines of a file of cases: comments behind `#`, names of bytes, and cases.
use crate::names::Names;
use call_text::refusal_text;
use map_types::Refusal;
use std::alloc::{AllocError, Global};

/// Plays cases.
pub trait Plays {
    /// What comes of the input of a case of this kind, as text.
    fn play(
        &self,
        alloc: Global,
        kind: &str,
        names: &Names,
        input: &str,
    ) -> Result<String, Refusal>;
}

/// What a line has.
enum Line<'a> {
    Nothing,
    Bytes { name: &'a str, text: &'a str },
    Case(Case<'a>),
}

/// A case: its name, its input, and what is to come.
#[derive(Clone, Copy)]
struct Case<'a> {
    name: &'a str,
    input: &'a str,
    expected: &'a str,
}

fn line_of(line: &str) -> Line<'_> {
    if line.is_empty() || line.starts_with('#') {
        return Line::Nothing;
    }
    if let Some((name, text)) = line.split_once(" = ") {
        return Line::Bytes { name, text };
    }
    let (name, rest) = line.split_once(" | ").unwrap_or((line, ""));
    let (input, expected) = rest.split_once(" | ").unwrap_or((rest, ""));
    Line::Case(Case {
        name,
        input,
        expected,
    })
}

/// What comes of the input, or the text of its refusal.
fn come_of<P: Plays>(
    alloc: Global,
    plays: &P,
    kind: &str,
    names: &Names,
    input: &str,
) -> Result<String, AllocError> {
    match plays.play(alloc, kind, names, input) {
        Ok(text) => Ok(text),
        Err(refusal) => refusal_text(alloc, refusal),
    }
}

fn tell(kind: &str, case: Case<'_>, come: &str, told: &mut String) -> Result<(), AllocError> {
    let Case { name, expected, .. } = case;
    if come == expected {
        writeln!(told, "{kind}: {name}")
    } else {
        writeln!(told, "{kind}: {name}: expected {expected}, came {come}")
    }
}

fn take_line<P: Plays>(
    alloc: Global,
    plays: &P,
    kind: &str,
    names: &mut Names,
    line: &str,
    told: &mut String,
) -> Result<(), AllocError> {
    match line_of(line) {
        Line::Nothing => Ok(()),
        Line::Bytes { name, text } => names.add(alloc, name, text),
        Line::Case(case) => {
            let come = come_of(alloc, plays, kind, names, case.input)?;
            tell(kind, case, come.as_str(), told)
        }
    }
}

/// What is to be printed of the cases of this kind that stand in the text: a line for each, with
/// its name. If something else came, the line has what was expected and what came. A line of the
/// text is a comment behind `#`, a name of bytes as `NAME = HEXADECIMAL`, or a case as
/// `NAME | INPUT | EXPECTED`.
pub fn told_of<P: Plays>(
    alloc: Global,
    plays: &P,
    kind: &str,
    text: &str,
) -> Result<String, AllocError> {
    let mut names = Names::new(alloc);
    let mut told = String::new(alloc);
    for line in text.split('\n') {
        take_line(alloc, plays, kind, &mut names, line, &mut told)?;
    }
    Ok(told)
}
