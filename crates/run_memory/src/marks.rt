//! The lines round a call. `tests/faults.c` knows `begin` and `end`.
use map_types::Refusal;

/// What is printed round a call.
#[derive(Clone, Copy)]
pub(crate) enum Marks {
    /// `begin` and `end`: between them requests for memory are counted, and may be refused.
    Both,
    /// `again` before the call, which was refused.
    Again,
    /// Nothing.
    None,
}

/// Prints the text.
fn print<R: Print>(rt: &R, text: &str) -> Result<(), Refusal> {
    match rt.write_all(text.as_bytes()) {
        Ok(()) => Ok(()),
        Err(_) => Err(Refusal::Failed),
    }
}

impl Marks {
    /// Prints what was told before the call, and the line before it.
    pub(crate) fn begin<R: Print>(self, rt: &R, told: &mut String) -> Result<(), Refusal> {
        match self {
            Marks::Both => {
                print(rt, told.as_str())?;
                told.clear();
                print(rt, "begin\n")
            }
            Marks::Again => Ok(told.push_str("again\n")?),
            Marks::None => Ok(()),
        }
    }

    /// Prints the line behind the call.
    pub(crate) fn end<R: Print>(self, rt: &R) -> Result<(), Refusal> {
        match self {
            Marks::Both => print(rt, "end\n"),
            Marks::Again | Marks::None => Ok(()),
        }
    }
}
