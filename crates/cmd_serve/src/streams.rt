//! The sockets of connections.

use mio::event::Source;
use mio::{Interest, Registry, Token};
use std::io::{Read, Write};
use std::net::Shutdown;
use std::os::unix;
use std::{io, net};

/// The socket of a connection, whose reads and writes don't wait.
#[derive(Drop)]
pub enum Stream {
    /// Of a port.
    Port(mio::net::TcpStream),
    /// Of a Unix socket.
    Socket(mio::net::UnixStream),
}

impl Stream {
    /// That of a connection to a port.
    pub fn of_port(stream: net::TcpStream) -> io::Result<Stream> {
        stream.set_nodelay(true)?;
        stream.set_nonblocking(true)?;
        Ok(Stream::Port(mio::net::TcpStream::from_std(stream)))
    }

    /// That of a connection to a Unix socket.
    pub fn of_socket(stream: unix::net::UnixStream) -> io::Result<Stream> {
        stream.set_nonblocking(true)?;
        Ok(Stream::Socket(mio::net::UnixStream::from_std(stream)))
    }

    /// Ends the sending side: the peer finds the end after what was written.
    pub(crate) fn end_sending(&self) -> io::Result<()> {
        match self {
            Stream::Port(stream) => stream.shutdown(Shutdown::Write),
            Stream::Socket(stream) => stream.shutdown(Shutdown::Write),
        }
    }
}

impl Read for Stream {
    fn read(&mut self, buf: &mut [u8]) -> io::Result<usize> {
        match self {
            Stream::Port(stream) => stream.read(buf),
            Stream::Socket(stream) => stream.read(buf),
        }
    }
}

impl Write for Stream {
    fn write(&mut self, buf: &[u8]) -> io::Result<usize> {
        match self {
            Stream::Port(stream) => stream.write(buf),
            Stream::Socket(stream) => stream.write(buf),
        }
    }

    fn flush(&mut self) -> io::Result<()> {
        Ok(())
    }
}

impl Source for Stream {
    fn register(
        &mut self,
        registry: &Registry,
        token: Token,
        interests: Interest,
    ) -> io::Result<()> {
        match self {
            Stream::Port(stream) => stream.register(registry, token, interests),
            Stream::Socket(stream) => stream.register(registry, token, interests),
        }
    }

    fn reregister(
        &mut self,
        registry: &Registry,
        token: Token,
        interests: Interest,
    ) -> io::Result<()> {
        match self {
            Stream::Port(stream) => stream.reregister(registry, token, interests),
            Stream::Socket(stream) => stream.reregister(registry, token, interests),
        }
    }

    fn deregister(&mut self, registry: &Registry) -> io::Result<()> {
        match self {
            Stream::Port(stream) => stream.deregister(registry),
            Stream::Socket(stream) => stream.deregister(registry),
        }
    }
}
