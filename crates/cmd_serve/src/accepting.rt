//! Connections are accepted at the places where a server listens.

use crate::listening::Listeners;
use crate::pool::Arrivals;
use crate::streams::Stream;
use log::{Log, warn};
use mio::{Events, Interest, Poll, Token};
use std::alloc::Global;
use std::io::ErrorKind;
use std::net::{Net, TcpListener};
use std::os::unix::net::UnixListener;
use std::sync::Wait;
use std::time::{Clock, Duration};
use std::{io, thread};

/// How long a server waits before it tries again to accept a connection, in milliseconds: what fails
/// (as for want of descriptors) fails again at once.
const ACCEPT_PAUSE: u64 = 20;

/// A server listens at two places at most.
const MOST_EVENTS: usize = 2;

/// A socket that listens, whose accepts don't wait.
#[derive(Drop)]
enum Listener {
    /// At a port.
    Port(mio::net::TcpListener),
    /// At a path.
    Socket(mio::net::UnixListener),
}

impl Listener {
    /// The next connection.
    fn accept(&self) -> io::Result<Stream> {
        match self {
            Listener::Port(listener) => {
                let (stream, _) = listener.accept()?;
                let _ = stream.set_nodelay(true);
                Ok(Stream::Port(stream))
            }
            Listener::Socket(listener) => {
                let (stream, _) = listener.accept()?;
                Ok(Stream::Socket(stream))
            }
        }
    }
}

/// A socket that listens, and whether there may be a connection to be accepted.
#[derive(Drop)]
struct Entrance {
    listener: Listener,
    may_accept: bool,
}

/// The connections that are accepted at the places of a server.
#[derive(Drop)]
pub(crate) struct Acceptor<'a, R: Clock + Log + Wait> {
    rt: &'a R,
    poll: Poll,
    events: Events<Global>,
    entrances: Vec<Entrance>,
    // the entrance whose turn it is
    turn: usize,
    // the log has a record that none can be accepted, since one last was at once
    has_said: bool,
}

impl<'a, R: Clock + Log + Net + Wait> Acceptor<'a, R> {
    /// Those of these listeners.
    pub(crate) fn new(
        rt: &'a R,
        alloc: Global,
        listeners: Listeners<UnixListener>,
    ) -> io::Result<Acceptor<'a, R>> {
        let mut acceptor = Acceptor {
            rt,
            poll: Poll::new(rt)?,
            events: Events::with_capacity(alloc, MOST_EVENTS)?,
            entrances: Vec::new(alloc),
            turn: 0,
            has_said: false,
        };
        let Listeners { port, socket } = listeners;
        if let Some(listener) = port {
            acceptor.add_port(listener)?;
        }
        if let Some(listener) = socket {
            acceptor.add_socket(listener)?;
        }
        Ok(acceptor)
    }

    /// The token of the next entrance.
    fn next_token(&self) -> Token {
        Token(self.entrances.len())
    }

    fn add(&mut self, listener: Listener) -> io::Result<()> {
        let entrance = Entrance {
            listener,
            may_accept: true,
        };
        self.entrances.push(entrance)?;
        Ok(())
    }

    fn add_port(&mut self, listener: TcpListener) -> io::Result<()> {
        listener.set_nonblocking(true)?;
        let mut listener = mio::net::TcpListener::from_std(listener);
        let token = self.next_token();
        self.poll
            .registry()
            .register(&mut listener, token, Interest::READABLE)?;
        self.add(Listener::Port(listener))
    }

    fn add_socket(&mut self, listener: UnixListener) -> io::Result<()> {
        listener.set_nonblocking(true)?;
        let mut listener = mio::net::UnixListener::from_std(listener);
        let token = self.next_token();
        self.poll
            .registry()
            .register(&mut listener, token, Interest::READABLE)?;
        self.add(Listener::Socket(listener))
    }
}

impl<R: Clock + Log + Wait> Acceptor<'_, R> {
    /// The entrance whose turn it is. The turn of the next one comes next.
    fn take_turn(&mut self) -> usize {
        if self.turn >= self.entrances.len() {
            self.turn = 0;
        }
        let place = self.turn;
        self.turn = place + 1;
        place
    }

    /// The next connection, or why it can't be had; nothing if none has come.
    fn accept(&mut self) -> Option<io::Result<Stream>> {
        for _ in 0..self.entrances.len() {
            let place = self.take_turn();
            let entrance = self.entrances.get_mut(place)?;
            if !entrance.may_accept {
                continue;
            }
            match entrance.listener.accept() {
                Err(cause) if cause.kind() == ErrorKind::WouldBlock => entrance.may_accept = false,
                accepted => return Some(accepted),
            }
        }
        None
    }

    /// Waits for a connection at some entrance.
    fn wait(&mut self) {
        if self.poll.poll(&mut self.events, None).is_err() {
            self.pause();
        }
        for event in self.events.iter() {
            let Token(place) = event.token();
            if let Some(entrance) = self.entrances.get_mut(place) {
                entrance.may_accept = true;
            }
        }
    }

    fn pause(&self) {
        thread::sleep(self.rt, Duration::from_millis(ACCEPT_PAUSE));
    }

    /// Says that none can be accepted, unless it has said so.
    fn complain(&mut self, cause: &io::Error) {
        if !self.has_said {
            warn!(self.rt; "no connection can be accepted: {cause}");
            self.has_said = true;
        }
    }
}

impl<R: Clock + Log + Wait> Arrivals for Acceptor<'_, R> {
    /// If none can be accepted, it tries again after a pause, and the log has one record of it for as
    /// long as it lasts.
    fn next(&mut self) -> Option<Stream> {
        let mut has_failed = false;
        for _ in self.rt.forever() {
            match self.accept() {
                Some(Ok(stream)) => {
                    self.has_said = self.has_said && has_failed;
                    return Some(stream);
                }
                Some(Err(cause)) => {
                    has_failed = true;
                    self.complain(&cause);
                    self.pause();
                }
                None => self.wait(),
            }
        }
        None
    }

    fn are_at_both(&self) -> bool {
        self.entrances.len() > 1
    }
}
