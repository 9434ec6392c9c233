//! A listening socket is made at a path.
ghost use Rattle.std.specs.Prelude.{◌≡◌, ℕ, List, IfOk, OnOk};
ghost use Rattle.socket_file.specs.Binding.{Binds};
ghost use Rattle.socket_file.specs.Names.{IsMode, IsSocketPath, inner_of, room_of};

use crate::calls::{Found, SocketFiles};
use crate::names::{inner_of, room_of};
use std::alloc::Global;
use std::io;
use std::io::ErrorKind;

/// Fails unless the path is free, or has a socket at which nobody listens, while the directory is
/// held.
fn see_that_it_is_free<S: SocketFiles>(files: &S, held: &S::Room, path: &str) -> io::Result<()>
    ensures { OnOk result (S.was_free held.now path.now) }
{
    match files.look(held, path)? {
        Found::Nothing => Ok(()),
        Found::Other => Err(io::Error::new(
            ErrorKind::AlreadyExists,
            "a file is there that isn't a socket",
        )),
        Found::Socket if files.is_listening(held, path)? => Err(io::Error::new(
            ErrorKind::AddrInUse,
            "another server listens there",
        )),
        Found::Socket => Ok(()),
    }
}

/// Removes the directory in which a socket is made, which is held, and a socket in it, as far as
/// that can be done.
fn clear<S: SocketFiles>(files: &S, held: &S::Room, room: &str, inner: &str)
    requires inside { (path : List ℕ) × (room.now ≡ room_of path)
        × (inner.now ≡ inner_of path) }
{
    if let Ok(Found::Socket) = files.look(held, inner) {
        let _ = files.remove_socket(inner);
    }
    let _ = files.remove_directory(room);
}

/// Makes the directory in which the socket is made, and holds it. One that was left there is
/// removed first. It fails if that can't be done, or if another process holds it.
fn make_room<S: SocketFiles>(files: &S, room: &str, inner: &str) -> io::Result<S::Room>
    requires inside { (path : List ℕ) × (room.now ≡ room_of path)
        × (inner.now ≡ inner_of path) }
    ensures { IfOk result (S.is_private room.now) }
{
    if let Some(left) = files.hold(room)? {
        clear(files, &left, room, inner);
    }
    files.make_private(room)
}

/// Makes a socket where nobody else reaches it, gives its file these rights, and renames it to the
/// path.
fn bind_inside<S: SocketFiles>(
    files: &S,
    alloc: Global,
    held: &S::Room,
    room: &str,
    inner: &str,
    path: &str,
    mode: u32,
) -> io::Result<S::Listener>
    requires private { S.is_private room.now held.now }
    requires room { room.now ≡ room_of path.now }
    requires inner { inner.now ≡ inner_of path.now }
    ensures { IfOk result (λ listener. Binds S.was_free S.is_private S.is_bound S.has_mode
        S.is_renamed path.now mode listener) }
{
    see_that_it_is_free(files, held, path)?;
    let listener = files.listen(alloc, held, room, inner)?;
    files.set_mode(&listener, inner, mode)?;
    files.rename(held, inner, path, mode)?;
    Ok(listener)
}

/// A socket that listens at the path, whose file has these rights. It is made in a directory beside
/// the path that only its user can enter, its file is given its rights there, and it is renamed to
/// the path only then. That directory is held meanwhile, so that of several processes one alone
/// binds a socket at a path at a time. At the end it is removed, if it can be.
///
/// It fails unless nothing is at the path, or a socket at which nobody listens, and if another
/// process is about to bind one. The file of a server that has ended is replaced: this is to be
/// called only while the lock is held that that server had. What else fails is the system's.
///
/// It removes only where sockets are made beside a path, and renames to this one only what has its
/// rights, once the path was free. If it fails, no clause says what is at the path. Tests show that
/// a file, a directory and a link to a socket stay there.
pub fn bind<S: SocketFiles>(
    files: &S,
    alloc: Global,
    path: &str,
    mode: u32,
) -> io::Result<S::Listener>
    requires path { IsSocketPath path.now }
    requires mode { IsMode mode }
    ensures { IfOk result (λ listener. Binds S.was_free S.is_private S.is_bound S.has_mode
        S.is_renamed path.now mode listener) }
{
    let room = room_of(alloc, path)?;
    let inner = inner_of(alloc, path)?;
    let held = make_room(files, &room, &inner)?;
    let bound = bind_inside(files, alloc, &held, &room, &inner, path, mode);
    clear(files, &held, &room, &inner);
    bound
}
