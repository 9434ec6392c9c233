//! The script language of whole schedules: its lines as events, and what came of them as text.
#![tactic(auto)]

pub mod bad_line;
pub mod line;
mod line_words;
pub mod parsing;
pub mod printing;
pub mod script;
mod words;

pub use bad_line::{BadLine, LineError, ScriptError};
pub use line::{Form, Line};
pub use parsing::parse;
pub use printing::text_of;
pub use script::{Script, Span};
