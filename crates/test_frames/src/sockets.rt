//! Sockets in a directory of their own.
use crate::checks::assert_same;
use socket_file::{Found, SocketFiles, bind, is_socket_path, mode_named};
use std::fs::{self, File};
use std::io::{self, ErrorKind, Read, Write};
use std::os::unix::fs::{MetadataExt, PermissionsExt, symlink};
use std::os::unix::net::{UnixListener, UnixStream};

/// What is done with files and sockets, or asked of them.
enum Step {
    /// Makes a directory. One that is there is removed first, with what it has.
    Make(&'static str),
    /// Removes a directory with what it has.
    Remove(&'static str),
    /// Makes a file of four bytes.
    Write(&'static str),
    /// Makes a link to the first path at the second.
    Link(&'static str, &'static str),
    /// Makes a directory that its user alone can enter, and holds it.
    Hold(&'static str),
    /// Binds a socket whose file has these rights, and keeps it.
    Bind(&'static str, u32),
    /// Makes a socket with no care for what else is there, and keeps it.
    Listen(&'static str),
    /// Lets go the socket that is kept, and the directory that is held.
    LetGo,
    /// Whether a byte that a client sends to the path comes to the socket that is kept.
    Reach(&'static str),
    /// What stands at the path.
    Look(&'static str),
    /// The rights of the file at the path.
    Mode(&'static str),
    /// The length of the file at the path.
    Length(&'static str),
    /// Whether another file stands at the path than at the last such question.
    IsNew(&'static str),
}

/// What comes of a step.
#[derive(Clone, Copy, Debug, PartialEq)]
enum Seen {
    Done,
    Is(bool),
    Stands(Found),
    Mode(u32),
    Length(u64),
}

/// The socket that is kept, the directory that is held, and the file that was seen last.
#[derive(Drop)]
struct Bench {
    kept: Option<UnixListener>,
    held: Option<File>,
    seen: u64,
}

fn make(rt: &HostRuntime, path: &str) -> io::Result<Seen> {
    let _ = fs::remove_dir_all(rt, path);
    fs::create_dir(rt, path)?;
    Ok(Seen::Done)
}

fn remove(rt: &HostRuntime, path: &str) -> io::Result<Seen> {
    fs::remove_dir_all(rt, path)?;
    Ok(Seen::Done)
}

fn write(rt: &HostRuntime, path: &str) -> io::Result<Seen> {
    let mut file = File::create(rt, path)?;
    file.write(b"kept")?;
    Ok(Seen::Done)
}

fn link(rt: &HostRuntime, to: &str, path: &str) -> io::Result<Seen> {
    symlink(rt, to, path)?;
    Ok(Seen::Done)
}

fn look(rt: &HostRuntime, path: &str) -> io::Result<Seen> {
    let here = File::open(rt, ".")?;
    Ok(Seen::Stands(rt.look(&here, path)?))
}

fn mode_of(rt: &HostRuntime, path: &str) -> io::Result<Seen> {
    let mode = fs::symlink_metadata(rt, path)?.permissions().mode();
    Ok(Seen::Mode(mode & 0o777))
}

fn length_of(rt: &HostRuntime, path: &str) -> io::Result<Seen> {
    Ok(Seen::Length(fs::symlink_metadata(rt, path)?.len()))
}

fn reach(rt: &HostRuntime, listener: &UnixListener, path: &str) -> io::Result<Seen> {
    let mut client = UnixStream::connect(rt, path)?;
    let (mut server, _) = listener.accept()?;
    client.write(b"a")?;
    let mut room = [0u8; 2];
    let len = server.read(&mut room)?;
    Ok(Seen::Is(len == 1 && room[0] == b'a'))
}

impl Bench {
    fn hold(&mut self, rt: &HostRuntime, path: &str) -> io::Result<Seen> {
        self.held = Some(rt.make_private(path)?);
        Ok(Seen::Done)
    }

    fn bind(&mut self, rt: &HostRuntime, path: &str, mode: u32) -> io::Result<Seen> {
        if !is_socket_path(path) || mode > 0o777 {
            return Err(io::Error::from(ErrorKind::InvalidInput));
        }
        self.kept = Some(bind(rt, rt.alloc(), path, mode)?);
        Ok(Seen::Done)
    }

    fn listen(&mut self, rt: &HostRuntime, path: &str) -> io::Result<Seen> {
        self.kept = Some(UnixListener::bind(rt, path)?);
        Ok(Seen::Done)
    }

    fn let_go(&mut self) -> io::Result<Seen> {
        self.kept = None;
        self.held = None;
        Ok(Seen::Done)
    }

    fn reach(&self, rt: &HostRuntime, path: &str) -> io::Result<Seen> {
        match &self.kept {
            Some(listener) => reach(rt, listener, path),
            None => Ok(Seen::Is(false)),
        }
    }

    fn is_new(&mut self, rt: &HostRuntime, path: &str) -> io::Result<Seen> {
        let before = self.seen;
        self.seen = fs::symlink_metadata(rt, path)?.ino();
        Ok(Seen::Is(self.seen != before))
    }

    fn take(&mut self, rt: &HostRuntime, step: &Step) -> io::Result<Seen> {
        match step {
            Step::Make(path) => make(rt, path),
            Step::Remove(path) => remove(rt, path),
            Step::Write(path) => write(rt, path),
            Step::Link(to, path) => link(rt, to, path),
            Step::Hold(path) => self.hold(rt, path),
            Step::Bind(path, mode) => self.bind(rt, path, *mode),
            Step::Listen(path) => self.listen(rt, path),
            Step::LetGo => self.let_go(),
            Step::Reach(path) => self.reach(rt, path),
            Step::Look(path) => look(rt, path),
            Step::Mode(path) => mode_of(rt, path),
            Step::Length(path) => length_of(rt, path),
            Step::IsNew(path) => self.is_new(rt, path),
        }
    }
}

/// What comes of a step, or why it fails.
type Outcome = Result<Seen, ErrorKind>;

/// The number and the outcome of the first step that comes out otherwise, if any.
fn first_wrong(rt: &HostRuntime, steps: &[(Step, Outcome)]) -> Option<(usize, Outcome)> {
    let mut bench = Bench {
        kept: None,
        held: None,
        seen: 0,
    };
    for number in 0..steps.len() {
        let (step, wanted) = &steps[number];
        let outcome = bench.take(rt, step).map_err(|cause| cause.kind());
        if outcome != *wanted {
            return Some((number, outcome));
        }
    }
    None
}

const DONE: Outcome = Ok(Seen::Done);

const YES: Outcome = Ok(Seen::Is(true));

const NO: Outcome = Ok(Seen::Is(false));

const NOTHING: Outcome = Ok(Seen::Stands(Found::Nothing));

const SOCKET: Outcome = Ok(Seen::Stands(Found::Socket));

const OTHER: Outcome = Ok(Seen::Stands(Found::Other));

const EXISTS: Outcome = Err(ErrorKind::AlreadyExists);

const IN_USE: Outcome = Err(ErrorKind::AddrInUse);

static ALONE: [(Step, Outcome); 5] = [
    (Step::Make("alone"), DONE),
    (Step::Hold("alone/room"), DONE),
    (Step::Mode("alone/room"), Ok(Seen::Mode(0o700))),
    (Step::LetGo, DONE),
    (Step::Remove("alone"), DONE),
];

#[test]
fn a_directory_is_its_users_alone(rt: HostRuntime) {
    assert_same(&rt, &first_wrong(&rt, &ALONE), &None);
}

static RIGHTS: [(Step, Outcome); 22] = [
    (Step::Make("rights"), DONE),
    (Step::Bind("rights/socket", 0o600), DONE),
    (Step::Look("rights/socket"), SOCKET),
    (Step::Mode("rights/socket"), Ok(Seen::Mode(0o600))),
    (Step::Look("rights/socket.new"), NOTHING),
    (Step::LetGo, DONE),
    (Step::Bind("rights/socket", 0o660), DONE),
    (Step::Look("rights/socket"), SOCKET),
    (Step::Mode("rights/socket"), Ok(Seen::Mode(0o660))),
    (Step::Look("rights/socket.new"), NOTHING),
    (Step::LetGo, DONE),
    (Step::Bind("rights/socket", 0o666), DONE),
    (Step::Look("rights/socket"), SOCKET),
    (Step::Mode("rights/socket"), Ok(Seen::Mode(0o666))),
    (Step::Look("rights/socket.new"), NOTHING),
    (Step::LetGo, DONE),
    (Step::Bind("rights/socket", 0o000), DONE),
    (Step::Look("rights/socket"), SOCKET),
    (Step::Mode("rights/socket"), Ok(Seen::Mode(0o000))),
    (Step::Look("rights/socket.new"), NOTHING),
    (Step::LetGo, DONE),
    (Step::Remove("rights"), DONE),
];

#[test]
fn a_socket_has_its_rights(rt: HostRuntime) {
    assert_same(&rt, &first_wrong(&rt, &RIGHTS), &None);
}

/// A path of 101 bytes, at which a socket is made by its own path.
const LONG: &str =
    "long/xxxxxxxxxxxxxxxxxxxxxxxxxxxxxxxxxxxxxxxxxxxxxxxxxxxxxxxxxxxxxxxxxxxxxxxxxxxxxxxxxxxxxxxxxxxxxxxx";

/// A path of 102 bytes. The path at which its socket is made is longer than an address can be.
const LONGER: &str =
    "long/xxxxxxxxxxxxxxxxxxxxxxxxxxxxxxxxxxxxxxxxxxxxxxxxxxxxxxxxxxxxxxxxxxxxxxxxxxxxxxxxxxxxxxxxxxxxxxxxx";

/// A path that is as long as an address can be.
const LONGEST: &str =
    "long/xxxxxxxxxxxxxxxxxxxxxxxxxxxxxxxxxxxxxxxxxxxxxxxxxxxxxxxxxxxxxxxxxxxxxxxxxxxxxxxxxxxxxxxxxxxxxxxxxxxxxx";

static LONG_PATHS: [(Step, Outcome); 14] = [
    (Step::Make("long"), DONE),
    (Step::Bind(LONG, 0o600), DONE),
    (Step::Reach(LONG), YES),
    (Step::Mode(LONG), Ok(Seen::Mode(0o600))),
    (Step::LetGo, DONE),
    (Step::Bind(LONGER, 0o600), DONE),
    (Step::Reach(LONGER), YES),
    (Step::Mode(LONGER), Ok(Seen::Mode(0o600))),
    (Step::LetGo, DONE),
    (Step::Bind(LONGEST, 0o600), DONE),
    (Step::Reach(LONGEST), YES),
    (Step::Mode(LONGEST), Ok(Seen::Mode(0o600))),
    (Step::LetGo, DONE),
    (Step::Remove("long"), DONE),
];

#[test]
fn long_paths(rt: HostRuntime) {
    assert_same(&rt, &first_wrong(&rt, &LONG_PATHS), &None);
}

/// The file of a listener that was dropped is replaced; that of one that listens isn't.
static STALE: [(Step, Outcome); 11] = [
    (Step::Make("stale"), DONE),
    (Step::Bind("stale/socket", 0o600), DONE),
    (Step::Reach("stale/socket"), YES),
    (Step::Bind("stale/socket", 0o600), IN_USE),
    (Step::LetGo, DONE),
    (Step::IsNew("stale/socket"), YES),
    (Step::Bind("stale/socket", 0o600), DONE),
    (Step::Reach("stale/socket"), YES),
    (Step::IsNew("stale/socket"), YES),
    (Step::LetGo, DONE),
    (Step::Remove("stale"), DONE),
];

#[test]
fn a_stale_file_is_replaced(rt: HostRuntime) {
    assert_same(&rt, &first_wrong(&rt, &STALE), &None);
}

/// A file, a directory and a link to a socket stay.
static OTHERS: [(Step, Outcome); 14] = [
    (Step::Make("others"), DONE),
    (Step::Write("others/file"), DONE),
    (Step::Make("others/directory"), DONE),
    (Step::Bind("others/socket", 0o600), DONE),
    (Step::LetGo, DONE),
    (Step::Link("socket", "others/link"), DONE),
    (Step::Bind("others/file", 0o600), EXISTS),
    (Step::Look("others/file"), OTHER),
    (Step::Bind("others/directory", 0o600), EXISTS),
    (Step::Look("others/directory"), OTHER),
    (Step::Bind("others/link", 0o600), EXISTS),
    (Step::Look("others/link"), OTHER),
    (Step::Length("others/file"), Ok(Seen::Length(4))),
    (Step::Remove("others"), DONE),
];

#[test]
fn what_is_no_socket_stays(rt: HostRuntime) {
    assert_same(&rt, &first_wrong(&rt, &OTHERS), &None);
}

/// What a bind that was killed left beside the path is cleared; what isn't its own stays, and is an
/// error.
static BESIDE: [(Step, Outcome); 14] = [
    (Step::Make("beside"), DONE),
    (Step::Make("beside/socket.new"), DONE),
    (Step::Listen("beside/socket.new/s"), DONE),
    (Step::LetGo, DONE),
    (Step::Bind("beside/socket", 0o600), DONE),
    (Step::LetGo, DONE),
    (Step::Look("beside/socket.new"), NOTHING),
    (Step::Make("beside/socket.new"), DONE),
    (Step::Write("beside/socket.new/file"), DONE),
    (Step::IsNew("beside/socket"), YES),
    (Step::Bind("beside/socket", 0o600), EXISTS),
    (Step::IsNew("beside/socket"), NO),
    (Step::Look("beside/socket.new/file"), OTHER),
    (Step::Remove("beside"), DONE),
];

#[test]
fn what_stands_beside_the_path(rt: HostRuntime) {
    assert_same(&rt, &first_wrong(&rt, &BESIDE), &None);
}

/// What another one that binds has made stays, until that one has ended.
static TURNS: [(Step, Outcome); 10] = [
    (Step::Make("turns"), DONE),
    (Step::Hold("turns/socket.new"), DONE),
    (Step::Listen("turns/socket.new/s"), DONE),
    (Step::Bind("turns/socket", 0o600), IN_USE),
    (Step::Look("turns/socket.new/s"), SOCKET),
    (Step::Look("turns/socket"), NOTHING),
    (Step::LetGo, DONE),
    (Step::Bind("turns/socket", 0o600), DONE),
    (Step::Look("turns/socket.new"), NOTHING),
    (Step::Remove("turns"), DONE),
];

#[test]
fn one_at_a_time(rt: HostRuntime) {
    assert_same(&rt, &first_wrong(&rt, &TURNS), &None);
}

static ABSENT: [(Step, Outcome); 1] = [(
    Step::Bind("absent/socket", 0o600),
    Err(ErrorKind::NotFound),
)];

#[test]
fn an_absent_directory(rt: HostRuntime) {
    assert_same(&rt, &first_wrong(&rt, &ABSENT), &None);
}

/// Words, and the rights that they name.
static WORDS: [(&str, Option<u32>); 9] = [
    ("600", Some(0o600)),
    ("0660", Some(0o660)),
    ("777", Some(0o777)),
    ("0", Some(0)),
    ("1000", None),
    ("608", None),
    ("rw", None),
    ("", None),
    ("-1", None),
];

/// The first word that names other rights, if any.
fn first_misread() -> Option<&'static str> {
    for (word, mode) in &WORDS {
        if mode_named(word) != *mode {
            return Some(*word);
        }
    }
    None
}

/// A path of one byte more than an address has room for.
const TOO_LONG: &str =
    "long/xxxxxxxxxxxxxxxxxxxxxxxxxxxxxxxxxxxxxxxxxxxxxxxxxxxxxxxxxxxxxxxxxxxxxxxxxxxxxxxxxxxxxxxxxxxxxxxxxxxxxxx";

#[test]
fn words_and_paths(rt: HostRuntime) {
    assert_same(&rt, &first_misread(), &None);
    let are_paths = [LONGEST, TOO_LONG, ""].map(is_socket_path);
    assert_same(&rt, &are_paths, &[true, false, false]);
}
