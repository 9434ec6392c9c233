//! The frames of a connection: requests out of a stream that comes in pieces, and replies into a
//! writer. For a client: requests as frames, and replies out of a reader.
#![tactic(auto)]

pub mod answers;
pub mod asking;
pub mod feeder;
pub mod receiving;
pub mod replies;
pub mod requests;

pub use answers::{AnswerError, read_answer};
pub use asking::request_frame;
pub use feeder::{Feeder, every_division, one_division, whole_map_begins_bulk};
pub use receiving::{ReplyError, read_reply};
pub use replies::{write_reply, write_whole};
pub use requests::{Bulk, Request, read_request, requests_agree};
