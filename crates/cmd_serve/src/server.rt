//! The server: the map of a directory is served at a port of this machine, at a Unix socket, or at
//! both.
ghost use Rattle.std.specs.Prelude.{◌≡◌, IfOk};
ghost use Rattle.call_text.specs.Printing.{PrintsAtMost};
ghost use Rattle.cmd_serve.specs.Serving.{EndsAt, ServesDisk, ServesOn};
ghost use Rattle.cmd_serve.specs.Listening.{HaveSocketPath};
ghost use Rattle.socket_file.specs.Binding.{Binds};
ghost use Rattle.socket_file.specs.Names.{IsMode};

use crate::accepting::Acceptor;
use crate::figures::Figures;
use crate::listening::{Listeners, lines_of, listen};
use crate::opening::{find, open_directory, open_map};
use crate::reporting::Reporter;
use crate::seats::furnish;
use crate::service::{Service, serve_seated};
use crate::settings::{ServerWords, Settings, settings_named};
use call_text::{MISUSED, break_off, cannot_open, refuse, say};
use cmd_directory::Directories;
use disk_model::{Disk, FirstError};
use durable_map::DurableMap;
use log::{Log, error, info};
use map_types::Refusal;
use socket_file::SocketFiles;
use std::alloc::{AllocError, Global};
use std::io;
use std::io::Write;
use std::net::{Net, TcpListener, TcpStream};
use std::os::unix::net::UnixListener;
use std::sync::Wait;
use std::sync::atomic::AtomicUsize;
use std::thread::Threads;
use std::time::Clock;
use wire_frames::write_whole;

/// How many threads answer requests of the whole map.
const OFFICES: usize = 2;

/// Says by the lines on `output` that the server listens.
fn announce<W: Write>(lines: &str, output: &mut W) -> io::Result<()>
    ensures { PrintsAtMost lines.now (W.contents output.old) (W.contents output.new) }
{
    write_whole(output, lines.as_bytes())?;
    output.flush()
}

/// Says at which places it listens, and serves the map.
fn host<
    D: Disk + Drop + Send,
    W: Write,
    E: Write,
    R: Net<Listener = TcpListener, Stream = TcpStream>
        + Clock
        + Figures
        + Log
        + Threads
        + Wait
        + Sync,
>(
    rt: &R,
    service: &Service<'_, D>,
    reporter: &Reporter<'_>,
    settings: &Settings<'_>,
    listeners: Listeners<UnixListener>,
    output: &mut W,
    error: &mut E,
) -> u8
    // The records are those that are asked for.
    requires { reporter.now.seconds ≡ settings.now.report_seconds }
    ensures { EndsAt settings.now.places (W.contents output.old) (W.contents output.new) result }
{
    let alloc = service.alloc;
    let Ok(lines) = lines_of(alloc, settings.places) else {
        return refuse(alloc, Refusal::NoMemory, error);
    };
    let mut acceptor = match Acceptor::new(rt, alloc, listeners) {
        Ok(acceptor) => acceptor,
        Err(cause) => {
            error!(rt; "connections can't be waited for: {cause}");
            return cannot_open(alloc, &cause, error);
        }
    };
    let (furniture, bells) = match furnish(rt, alloc, service.workers) {
        Ok(furnished) => furnished,
        Err(cause) => {
            error!(rt; "no worker can be had: {cause}");
            return cannot_open(alloc, &cause, error);
        }
    };
    if let Err(cause) = announce(lines.as_str(), output) {
        error!(rt; "standard output failed: {cause}");
        return break_off(error);
    }
    match serve_seated(rt, service, reporter, furniture, bells, &mut acceptor) {
        Ok(()) => break_off(error),
        Err(refusal) => refuse(alloc, refusal, error),
    }
}

/// What writes the records of a server of the directory, whose map begins with so many commands.
/// Two of its threads take up the requests of the whole map, beside the workers.
fn reporter_of<'a, R: Clock>(
    rt: &R,
    alloc: Global,
    directory: &'a str,
    first: u64,
    settings: &Settings<'_>,
) -> Result<Reporter<'a>, AllocError>
    ensures { IfOk result (λ reporter. reporter.seconds ≡ settings.now.report_seconds) }
{
    let threads = settings.workers.saturating_add(OFFICES);
    Reporter::new(
        rt,
        alloc,
        directory,
        settings.report_seconds,
        first,
        threads,
    )
}

/// Serves the map of the directory, which begins with so many commands and whose log is written
/// ahead as the settings say.
fn serve_opened<
    D: Disk + Drop + Send,
    W: Write,
    E: Write,
    R: Net<Listener = TcpListener, Stream = TcpStream>
        + Clock
        + Figures
        + Log
        + Threads
        + Wait
        + Sync,
>(
    rt: &R,
    alloc: Global,
    directory: &str,
    map: &DurableMap<D>,
    first: u64,
    first_error: &FirstError,
    settings: &Settings<'_>,
    listeners: Listeners<UnixListener>,
    output: &mut W,
    error: &mut E,
) -> u8
    ensures { EndsAt settings.now.places (W.contents output.old) (W.contents output.new) result }
{
    if let Err(refusal) = map.set_log_ahead(rt, settings.log_ahead as usize) {
        return refuse(alloc, refusal, error);
    }
    let Ok(reporter) = reporter_of(rt, alloc, directory, first, settings) else {
        return refuse(alloc, Refusal::NoMemory, error);
    };
    let served = AtomicUsize::new(0);
    let service = Service {
        alloc,
        map,
        first_error,
        checkpoint_bytes: settings.checkpoint_bytes,
        workers: settings.workers,
        connections: settings.connections as usize,
        idle_seconds: settings.idle_seconds,
        open: &served,
    };
    host(rt, &service, &reporter, settings, listeners, output, error)
}

/// Says why the files of a directory can't be opened, whose first failing call has this cause.
fn refuse_files<L: Log, E: Write>(
    rt: &L,
    alloc: Global,
    first_error: &FirstError,
    refusal: Refusal,
    error: &mut E,
) -> u8
    ensures { result ≡ 1 }
{
    if let Some(cause) = first_error.get() {
        error!(rt; "the directory can't be opened, {cause}");
    }
    refuse(alloc, refusal, error)
}

/// Opens the disk of a directory, and says in a record with how many commands its map begins. Then it
/// listens, and serves the map, upgraded first if its newest log is of an earlier version. So nothing is
/// written if it can't listen. `first_error` tells of the disk.
pub(crate) fn serve_disk<
    D: Disk + Drop + Send,
    M: SocketFiles<Listener = UnixListener>,
    W: Write,
    E: Write,
    R: Net<Listener = TcpListener, Stream = TcpStream>
        + Clock
        + Figures
        + Log
        + Threads
        + Wait
        + Sync,
>(
    rt: &R,
    machine: &M,
    alloc: Global,
    directory: &str,
    disk: D,
    first_error: FirstError,
    settings: &Settings<'_>,
    output: &mut W,
    error: &mut E,
) -> u8
    requires path { HaveSocketPath settings.now.places }
    requires mode { IsMode settings.now.mode }
    ensures { ServesDisk (Binds M.was_free M.is_private M.is_bound M.has_mode M.is_renamed) D.states
        D.failures D.honest settings.now disk (W.contents output.old) (W.contents output.new)
        result }
{
    let stripes = settings.stripes;
    let found = match find(rt, alloc, disk, stripes) {
        Ok(found) => found,
        Err((_disk, refusal)) => return refuse_files(rt, alloc, &first_error, refusal, error),
    };
    let first = found.first;
    info!(rt; "prefix {first}");
    let listeners = match listen(rt, machine, alloc, settings.places, settings.mode) {
        Ok(listeners) => listeners,
        Err(cause) => return cannot_open(alloc, &cause, error),
    };
    match open_map(rt, alloc, found, stripes) {
        Ok((map, first)) => serve_opened(
            rt,
            alloc,
            directory,
            &map,
            first,
            &first_error,
            settings,
            listeners,
            output,
            error,
        ),
        Err((_disk, refusal)) => refuse_files(rt, alloc, &first_error, refusal, error),
    }
}

/// Serves the map of a directory at a port of this machine, at a Unix socket, or at both, with the
/// words of its command line. It ends only by being ended. Of its four files those that are absent
/// are made: an empty one may have been left out of a copy. A directory whose newest log is of an
/// earlier version is brought to the newest one. A server that stands by waits as long as
/// another holds a lock of the directory, and one Info record says so.
///
/// The status is 2 with a text on `error` if the words aren't allowed. It is 1 with `unreadable` on
/// `error` if the directory's lock or files, the port, the socket or `output` fail. It is 1 with
/// `refused` and the refusal if the directory can't be opened or no memory is found. An Error
/// record has the cause of what the system refused. Once the directory is open an Info record says
/// how many commands the map begins with. Only then, with the directory's lock, is the socket made,
/// and the file of a server that has ended replaced. If that fails no file of the directory was
/// written to. An upgrade comes behind it, and has a record. Once it serves it prints `listening` and
/// the port, and the same with the path. If the store fails later, one Error
/// record says why. If records of its work are asked for, an Info record tells of it each time that
/// so many seconds have gone, and one of each checkpoint.
pub fn serve<
    R: Net<Listener = TcpListener, Stream = TcpStream>
        + Clock
        + Figures
        + Log
        + Threads
        + Wait
        + Sync,
    M: Directories + SocketFiles<Listener = UnixListener>,
    W: Write,
    E: Write,
>(rt: &R, machine: &M, alloc: Global, words: &ServerWords<'_>, output: &mut W, error: &mut E) -> u8
    ensures { ServesOn M.Opened.states M.Opened.failures M.Opened.honest M.is_created
        M.is_refused (Binds M.was_free M.is_private M.is_bound M.has_mode M.is_renamed) words.now
        (W.contents output.old) (W.contents output.new) result }
{
    let settings = match settings_named(words) {
        Ok(settings) => settings,
        Err(text) => {
            say(error, text);
            return MISUSED;
        }
    };
    match open_directory(rt, machine, alloc, words.directory, settings.stands_by) {
        Ok(disk) => match M::first_error(&disk) {
            Ok(first_error) => serve_disk(
                rt,
                machine,
                alloc,
                words.directory,
                disk,
                first_error,
                &settings,
                output,
                error,
            ),
            Err(_) => refuse(alloc, Refusal::NoMemory, error),
        },
        Err(cause) => {
            let directory = words.directory;
            error!(rt; "the directory {directory} can't be opened: {cause}");
            cannot_open(alloc, &cause, error)
        }
    }
}
