//! A Unix socket that listens at a path, with chosen rights from its first moment on.
#![tactic(auto)]

pub mod binding;
pub mod calls;
pub mod names;

pub use binding::bind;
pub use calls::{Found, SocketFiles};
pub use names::{MOST_BYTES, is_socket_path, mode_named};
