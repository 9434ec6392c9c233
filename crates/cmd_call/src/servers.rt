//! How a server is reached.
ghost use Rattle.std.specs.Prelude.{◌≡◌, ℕ, List, Option, IfErr, IfOk};
ghost use Rattle.std.specs.declared.io.Error.{Error};
ghost use Rattle.cmd_call.specs.declared.servers.Server.{Server};
ghost use Rattle.wire_frames.specs.declared.receiving.ReplyError.{ReplyError};
ghost use Rattle.wire_frames.specs.Receiving.{ReadsReply};

use map_types::{Refusal, Reply};
use std::alloc::Global;
use std::io;
use std::io::{Read, Write};
use wire_frames::ReplyError;

/// Gives the replies of a server. What is done with them is proved for every type that gives them:
/// that reading one failed is known from this call alone.
pub trait Replies: Read {
    /// Reading a reply ended with this error, of what was left before and what is left then.
    ghost fails: { Option (List ℕ) → Option (List ℕ) → ReplyError → Type 0 };

    /// Reads one reply, and nothing behind it.
    fn next_reply(&mut self, alloc: Global) -> Result<Result<Reply, Refusal>, ReplyError>
        ensures reads { ReadsReply (Self.remaining self.old) (Self.remaining self.new) result }
        ensures failed { IfErr result
            (fails (Self.remaining self.old) (Self.remaining self.new)) };
}

/// Takes the requests for a server.
pub trait Requests: Write {
    /// The next requests are about to be sent: the time for that begins.
    fn begin(&mut self)
        ensures { Self.contents self.new ≡ Self.contents self.old };
}

/// Where a server of this machine takes connections.
#[derive(Clone, Copy)]
pub enum Place<'a> {
    /// At a port.
    Port(u16),
    /// At the Unix socket of this path.
    Socket(&'a str),
}

/// A server of this machine, and for how many milliseconds it is waited for: for the connection, the
/// request and the reply of one call; or for the connection, for requests that are sent together,
/// and for each reply to these.
#[derive(Clone, Copy)]
pub struct Server<'a> {
    pub place: Place<'a>,
    pub timeout_ms: u32,
}

/// Connects to the servers of this machine. What a call of one does is proved for every type that
/// connects: a reader and a writer come of this call alone, and so does the error of a connection
/// that can't be had.
pub trait Servers {
    /// The end of a connection that gives what the server sends.
    type Reader: Replies + Drop;

    /// The end of a connection that takes what is sent to the server.
    type Writer: Requests + Drop;

    /// These are the ends of a new connection to this server, which is waited for so long.
    ghost is_connected: { Server → Self.Reader → Self.Writer → Type 0 };

    /// A connection to this server was tried for so long, and there was none, for this error.
    ghost is_unreachable: { Server → Error → Type 0 };

    /// A new connection to the server.
    fn connect_to(&self, server: Server<'_>) -> io::Result<(Self::Reader, Self::Writer)>
        ensures connected { IfOk result (λ ends. is_connected server.entry ends.0 ends.1) }
        ensures unreachable { IfErr result (λ error. is_unreachable server.entry error) };
}
