//! The connections of the system.
ghost use Rattle.std.specs.Io.{ReadsAtMost, WritesAtMost};

use crate::deadlines::Deadline;
use crate::servers::{Place, Replies, Requests, Server, Servers};
use map_types::{Refusal, Reply};
use std::alloc::Global;
use std::io::{ErrorKind, Read, Write};
use std::net::{Ipv4Addr, Net, SocketAddr, TcpStream};
use std::os::unix::net::UnixStream;
use std::time::{Clock, Duration};
use std::{io, thread};
use wire_frames::{ReplyError, read_reply};

/// A socket that is connected to a server.
#[derive(Drop)]
enum Socket {
    /// To a port.
    Port(TcpStream),
    /// To a Unix socket.
    Unix(UnixStream),
}

impl Socket {
    /// Another handle of it.
    fn try_clone(&self) -> io::Result<Socket> {
        match self {
            Socket::Port(stream) => Ok(Socket::Port(stream.try_clone()?)),
            Socket::Unix(stream) => Ok(Socket::Unix(stream.try_clone()?)),
        }
    }

    /// Reads, and waits for at most so long.
    fn read_within(&mut self, left: Duration, buf: &mut [u8]) -> io::Result<usize>
        ensures { ReadsAtMost result buf.new }
    {
        match self {
            Socket::Port(stream) => {
                stream.set_read_timeout(Some(left))?;
                stream.read(buf)
            }
            Socket::Unix(stream) => {
                stream.set_read_timeout(Some(left))?;
                stream.read(buf)
            }
        }
    }

    /// Writes, and waits for at most so long.
    fn write_within(&mut self, left: Duration, buf: &[u8]) -> io::Result<usize>
        ensures { WritesAtMost result buf.now }
    {
        match self {
            Socket::Port(stream) => {
                stream.set_write_timeout(Some(left))?;
                stream.write(buf)
            }
            Socket::Unix(stream) => {
                stream.set_write_timeout(Some(left))?;
                stream.write(buf)
            }
        }
    }
}

/// An end of a connection to a server. What waits past its deadline fails.
#[derive(Drop)]
pub struct ServerStream<C: Clock + Copy> {
    socket: Socket,
    deadline: Deadline<C>,
}

impl<C: Clock + Copy> Read for ServerStream<C> {
    fn read(&mut self, buf: &mut [u8]) -> io::Result<usize> {
        let left = self.deadline.left()?;
        self.socket.read_within(left, buf)
    }
}

impl<C: Clock + Copy> Write for ServerStream<C> {
    fn write(&mut self, buf: &[u8]) -> io::Result<usize> {
        let left = self.deadline.left()?;
        self.socket.write_within(left, buf)
    }

    fn flush(&mut self) -> io::Result<()> {
        Ok(())
    }
}

/// Whether reading a reply failed, no contract can tell.
impl<C: Clock + Copy> Replies for ServerStream<C> {
    ghost fails = { λ old new error. Unit {0} };

    fn next_reply(&mut self, alloc: Global) -> Result<Result<Reply, Refusal>, ReplyError> {
        self.deadline.renew();
        read_reply(alloc, self)
    }
}

impl<C: Clock + Copy> Requests for ServerStream<C> {
    fn begin(&mut self) {
        self.deadline.renew();
    }
}

/// A connection to a port of this machine.
fn connect_port<N: Net<Stream = TcpStream>>(
    net: &N,
    port: u16,
    left: Duration,
) -> io::Result<TcpStream> {
    let address = SocketAddr::from((Ipv4Addr::LOCALHOST, port));
    let stream = TcpStream::connect_timeout(net, &address, left)?;
    stream.set_nodelay(true)?;
    Ok(stream)
}

/// The milliseconds before a connection is tried again for which a Unix socket had no room.
const PAUSE: u64 = 10;

/// A connection to a Unix socket. It is tried again while there is no room for it.
fn connect_unix<N: Net + Clock + Copy>(
    net: &N,
    path: &str,
    deadline: &Deadline<N>,
) -> io::Result<UnixStream> {
    for _ in 0..u64::MAX {
        deadline.left()?;
        match mio::net::UnixStream::connect(net, path) {
            Ok(stream) => {
                let stream = UnixStream::from(stream);
                stream.set_nonblocking(false)?;
                return Ok(stream);
            }
            Err(cause) if cause.kind() == ErrorKind::WouldBlock => {
                thread::sleep(net, Duration::from_millis(PAUSE));
            }
            Err(cause) => return Err(cause),
        }
    }
    Err(io::Error::from(ErrorKind::TimedOut))
}

/// The servers that the system reaches. To which place a stream is connected, how long is waited, and
/// what the system refuses, no contract can tell.
impl<N: Net<Stream = TcpStream> + Clock + Copy> Servers for N {
    type Reader = ServerStream<N>;

    type Writer = ServerStream<N>;

    ghost is_connected = { λ server reader writer. Unit {0} };

    ghost is_unreachable = { λ server error. Unit {0} };

    fn connect_to(&self, server: Server<'_>) -> io::Result<(ServerStream<N>, ServerStream<N>)> {
        let timeout = Duration::from_millis(u64::from(server.timeout_ms));
        let deadline = Deadline::begin(*self, timeout)?;
        let socket = match server.place {
            Place::Port(port) => Socket::Port(connect_port(self, port, deadline.left()?)?),
            Place::Socket(path) => Socket::Unix(connect_unix(self, path, &deadline)?),
        };
        let writer = ServerStream {
            socket: socket.try_clone()?,
            deadline,
        };
        Ok((ServerStream { socket, deadline }, writer))
    }
}
