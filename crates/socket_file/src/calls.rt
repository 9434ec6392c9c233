//! The calls of the system by which a socket's file is made.
ghost use Rattle.std.specs.Prelude.{◌≡◌, ℕ, List, false, IfOk, OnOk};
ghost use Rattle.socket_file.specs.Names.{room_of, inner_of};
ghost use Rattle.socket_file.specs.declared.calls.Found.TheVariants.{Nothing, Socket};

use crate::names::is_socket_path;
use mio::net::UnixStream;
use std::alloc::Global;
use std::fs::{DirBuilder, File, Permissions, TryLockError};
use std::io::ErrorKind;
use std::net::Net;
use std::os::fd::AsRawFd;
use std::os::unix::fs::{DirBuilderExt, FileTypeExt, MetadataExt, PermissionsExt};
use std::os::unix::net::UnixListener;
use std::rt::Files;
use std::{fs, io};

/// What stands at a path.
#[derive(Clone, Copy, Debug, PartialEq, Eq)]
pub enum Found {
    Nothing,
    Socket,
    /// What is no socket, as a link to one.
    Other,
}

/// Makes the files of sockets. How one is bound is proved for every type that makes them: what has to come
/// before a call is what earlier ones ensured.
pub trait SocketFiles {
    /// A socket that listens.
    type Listener: Drop;

    /// A directory that is held: until it is let go no other process holds it.
    type Room: Drop;

    /// A socket was found at this path.
    ghost was_socket: { List ℕ → Type 0 };

    /// While this directory was held, nothing was found at the path, or a socket at which nobody listened.
    ghost was_free: { Self.Room → List ℕ → Type 0 };

    /// A directory that only its user can enter was made at this path, and this holds it.
    ghost is_private: { List ℕ → Self.Room → Type 0 };

    /// This listener's file was made at this path.
    ghost is_bound: { List ℕ → Self.Listener → Type 0 };

    /// The file at this path was given these rights.
    ghost has_mode: { List ℕ → ℕ → Type 0 };

    /// The file at the first path was renamed to the second.
    ghost is_renamed: { List ℕ → List ℕ → Type 0 };

    /// Holds the directory that stands at the path, if one does. It fails if another process holds it.
    fn hold(&self, path: &str) -> io::Result<Option<Self::Room>>;

    /// Makes a directory that only its user can enter, and holds it.
    fn make_private(&self, path: &str) -> io::Result<Self::Room>
        ensures { IfOk result (is_private path.now) };

    /// Looks what stands at the path, while a directory is held.
    fn look(&self, held: &Self::Room, path: &str) -> io::Result<Found>
        ensures nothing { IfOk result (λ found. found ≡ Nothing → was_free held.now path.now) }
        ensures socket { IfOk result (λ found. found ≡ Socket → was_socket path.now) };

    /// Whether somebody listens at the socket there, while a directory is held.
    fn is_listening(&self, held: &Self::Room, path: &str) -> io::Result<bool>
        requires { was_socket path.now }
        ensures { IfOk result (λ is. is ≡ false → was_free held.now path.now) };

    /// Makes a socket in a directory that only its user can enter, and listens at it.
    fn listen(
        &self,
        alloc: Global,
        held: &Self::Room,
        room: &str,
        inner: &str,
    ) -> io::Result<Self::Listener>
        requires private { is_private room.now held.now }
        requires inside { (path : List ℕ) × (room.now ≡ room_of path)
            × (inner.now ≡ inner_of path) }
        ensures { IfOk result (λ listener. is_bound inner.now listener) };

    /// Gives the listener's file these rights.
    fn set_mode(&self, listener: &Self::Listener, path: &str, mode: u32) -> io::Result<()>
        requires { is_bound path.now listener.now }
        ensures { OnOk result (has_mode path.now mode) };

    /// Renames a file that has these rights to a path that was free, in place of a socket there.
    fn rename(&self, held: &Self::Room, from: &str, to: &str, mode: u32) -> io::Result<()>
        requires rights { has_mode from.now mode }
        requires free { was_free held.now to.now }
        ensures { OnOk result (is_renamed from.now to.now) };

    /// Removes a socket's file in the directory in which sockets are made.
    fn remove_socket(&self, inner: &str) -> io::Result<()>
        requires socket { was_socket inner.now }
        requires inside { (path : List ℕ) × (inner.now ≡ inner_of path) };

    /// Removes the directory in which sockets are made, if it is empty.
    fn remove_directory(&self, room: &str) -> io::Result<()>
        requires { (path : List ℕ) × (room.now ≡ room_of path) };
}

/// The rights of the directory in which a socket is made: its user's alone.
const ROOM_MODE: u32 = 0o700;

/// Opens a directory, and locks it until it is closed. It fails if another process has locked it, or has
/// removed it meanwhile.
fn hold_directory<R: Files<File = File>>(rt: &R, path: &str) -> io::Result<File> {
    let room = File::open(rt, path)?;
    match room.try_lock() {
        Ok(()) => {}
        Err(TryLockError::Error(cause)) => return Err(cause),
        Err(TryLockError::WouldBlock) => {
            return Err(io::Error::new(
                ErrorKind::AddrInUse,
                "another server is about to listen there",
            ));
        }
    }
    let held = room.metadata()?;
    let found = fs::symlink_metadata(rt, path)?;
    if held.dev() != found.dev() || held.ino() != found.ino() {
        return Err(io::Error::new(
            ErrorKind::AddrInUse,
            "another server was about to listen there",
        ));
    }
    Ok(room)
}

/// The files and sockets of the system. What stands there, and what it does, no contract can tell.
impl<R: Files<File = File> + Net> SocketFiles for R {
    type Listener = UnixListener;

    type Room = File;

    ghost was_socket = { λ path. Unit {0} };

    ghost was_free = { λ room path. Unit {0} };

    ghost is_private = { λ path room. Unit {0} };

    ghost is_bound = { λ path listener. Unit {0} };

    ghost has_mode = { λ path mode. Unit {0} };

    ghost is_renamed = { λ from to. Unit {0} };

    fn hold(&self, path: &str) -> io::Result<Option<File>> {
        match fs::symlink_metadata(self, path) {
            Ok(data) if data.is_dir() => Ok(Some(hold_directory(self, path)?)),
            Ok(_) => Ok(None),
            Err(cause) if cause.kind() == ErrorKind::NotFound => Ok(None),
            Err(cause) => Err(cause),
        }
    }

    fn make_private(&self, path: &str) -> io::Result<File> {
        DirBuilder::new().mode(ROOM_MODE).create(self, path)?;
        hold_directory(self, path)
    }

    fn look(&self, _held: &File, path: &str) -> io::Result<Found> {
        match fs::symlink_metadata(self, path) {
            Ok(data) if data.file_type().is_socket() => Ok(Found::Socket),
            Ok(_) => Ok(Found::Other),
            Err(cause) if cause.kind() == ErrorKind::NotFound => Ok(Found::Nothing),
            Err(cause) => Err(cause),
        }
    }

    /// It doesn't wait. Where a connection would have to, somebody listens whose backlog is full.
    fn is_listening(&self, _held: &File, path: &str) -> io::Result<bool> {
        match UnixStream::connect(self, path) {
            Ok(_) => Ok(true),
            Err(cause) if cause.kind() == ErrorKind::ConnectionRefused => Ok(false),
            Err(cause) if cause.kind() == ErrorKind::WouldBlock => Ok(true),
            Err(cause) => Err(cause),
        }
    }

    /// The directory of a socket whose own path is too long for an address is named by its descriptor.
    fn listen(
        &self,
        alloc: Global,
        held: &File,
        _room: &str,
        inner: &str,
    ) -> io::Result<UnixListener> {
        if is_socket_path(inner) {
            return UnixListener::bind(self, inner);
        }
        let number = held.as_raw_fd();
        let short = format!(in alloc; "/proc/self/fd/{number}/s")?;
        UnixListener::bind(self, short.as_str())
    }

    fn set_mode(&self, _listener: &UnixListener, path: &str, mode: u32) -> io::Result<()> {
        fs::set_permissions(self, path, Permissions::from_mode(mode))
    }

    fn rename(&self, _held: &File, from: &str, to: &str, _mode: u32) -> io::Result<()> {
        fs::rename(self, from, to)
    }

    fn remove_socket(&self, inner: &str) -> io::Result<()> {
        fs::remove_file(self, inner)
    }

    fn remove_directory(&self, room: &str) -> io::Result<()> {
        fs::remove_dir(self, room)
    }
}
