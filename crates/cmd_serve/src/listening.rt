//! Where a server takes connections: at a port, at a Unix socket, or at both.
ghost use Rattle.std.specs.Prelude.{IfOk, string_bytes, ◌≡◌};
ghost use Rattle.cmd_serve.specs.Listening.{HaveListener, HaveSocketPath, listening_lines};
ghost use Rattle.socket_file.specs.Binding.{Binds};
ghost use Rattle.socket_file.specs.Names.{IsMode, IsSocketPath};

use log::{Log, error};
use socket_file::{SocketFiles, bind};
use std::alloc::{AllocError, Global};
use std::io;
use std::net::{Net, TcpListener, TcpStream};

/// Where a server takes connections.
#[derive(Clone, Copy)]
pub(crate) enum Places<'a> {
    /// At a port of this machine.
    Port(u16),
    /// At the Unix socket of this path.
    Socket(&'a str),
    /// At both.
    Both(u16, &'a str),
}

/// The lines that a server prints once it listens at these places.
pub(crate) fn lines_of(alloc: Global, places: Places<'_>) -> Result<String, AllocError>
    ensures { IfOk result (λ lines. string_bytes lines ≡ listening_lines places.entry) }
{
    match places {
        Places::Port(port) => format!(in alloc; "listening {port}\n"),
        Places::Socket(path) => format!(in alloc; "listening {path}\n"),
        Places::Both(port, path) => format!(in alloc; "listening {port}\nlistening {path}\n"),
    }
}

/// What listens at the places of a server.
#[derive(Drop)]
pub(crate) struct Listeners<L: Drop> {
    pub(crate) port: Option<TcpListener>,
    pub(crate) socket: Option<L>,
}

/// What listens at a port. If there is nothing, a record has the cause.
fn listen_at_port<R: Net<Listener = TcpListener, Stream = TcpStream> + Log>(
    rt: &R,
    port: u16,
) -> io::Result<TcpListener> {
    let listener = TcpListener::bind(rt, ("127.0.0.1", port));
    if let Err(cause) = &listener {
        error!(rt; "port {port} can't be listened on: {cause}");
    }
    listener
}

/// What listens at a path, with these rights. If there is nothing, a record has the cause.
fn listen_at_path<L: Log, M: SocketFiles>(
    rt: &L,
    machine: &M,
    alloc: Global,
    path: &str,
    mode: u32,
) -> io::Result<M::Listener>
    requires path { IsSocketPath path.now }
    requires mode { IsMode mode }
    ensures { IfOk result (λ listener. Binds M.was_free M.is_private M.is_bound M.has_mode
        M.is_renamed path.now mode listener) }
{
    let listener = bind(machine, alloc, path, mode);
    if let Err(cause) = &listener {
        error!(rt; "the socket {path} can't be listened on: {cause}");
    }
    listener
}

/// What listens at these places; the socket's file has these rights. If one of them fails, a record has
/// the cause. The port comes first, so that a socket's file is replaced only if it could be had.
pub(crate) fn listen<R: Net<Listener = TcpListener, Stream = TcpStream> + Log, M: SocketFiles>(
    rt: &R,
    machine: &M,
    alloc: Global,
    places: Places<'_>,
    mode: u32,
) -> io::Result<Listeners<M::Listener>>
    requires path { HaveSocketPath places }
    requires mode { IsMode mode }
    ensures { IfOk result (λ _. HaveListener (Binds M.was_free M.is_private M.is_bound M.has_mode
        M.is_renamed) places.entry mode) }
{
    match places {
        Places::Port(port) => Ok(Listeners {
            port: Some(listen_at_port(rt, port)?),
            socket: None,
        }),
        Places::Socket(path) => Ok(Listeners {
            port: None,
            socket: Some(listen_at_path(rt, machine, alloc, path, mode)?),
        }),
        Places::Both(port, path) => {
            let listener = listen_at_port(rt, port)?;
            Ok(Listeners {
                port: Some(listener),
                socket: Some(listen_at_path(rt, machine, alloc, path, mode)?),
            })
        }
    }
}
