//! The command lines that are known, as the library that reads them is told of them.
ghost use Rattle.std.specs.Prelude.{◌≡◌, false, codes, IfOk};
ghost use Rattle.clap.specs.Words.{app_of, rule_of};
ghost use Rattle.clap.specs.declared.builder.command.Command.TheViews.{out-Command as fields_of};
ghost use Rattle.map_server.specs.CommandLine.{call_line, check_line, command_line, directory_rule, file_rule, flag_rule, init_line, mem_line, option_rule, serve_line, sim_line, with_places, words_rule};

use call_text::VERSION;
use clap::{Arg, ArgAction, Command};
use std::alloc::{AllocError, Global};

/// The argument that names a directory.
fn directory<'a>(alloc: Global) -> Arg<'a>
    ensures rule { rule_of result ≡ directory_rule }
    ensures local { result.global ≡ false }
{
    Arg::new(alloc, "DIR")
        .required(true)
        .action(ArgAction::Set)
        .help("The directory of the map's files")
}

/// The argument that names a file.
fn file<'a>(alloc: Global) -> Arg<'a>
    ensures rule { rule_of result ≡ file_rule }
    ensures local { result.global ≡ false }
{
    Arg::new(alloc, "FILE")
        .required(true)
        .action(ArgAction::Set)
        .help("The file of a script")
}

/// An option that takes a value.
fn option<'a>(alloc: Global, name: &'a str, value: &'a str, help: &'a str) -> Arg<'a>
    ensures rule { rule_of result ≡ option_rule name.now }
    ensures local { result.global ≡ false }
{
    Arg::new(alloc, name)
        .long(name)
        .action(ArgAction::Set)
        .value_name(value)
        .help(help)
}

/// An option that takes no value.
fn flag<'a>(alloc: Global, name: &'a str, help: &'a str) -> Arg<'a>
    ensures rule { rule_of result ≡ flag_rule name.now }
    ensures local { result.global ≡ false }
{
    Arg::new(alloc, name)
        .long(name)
        .action(ArgAction::SetTrue)
        .help(help)
}

/// The option that says how many stripes a map is divided into.
fn stripes<'a>(alloc: Global) -> Arg<'a>
    ensures rule { rule_of result ≡ option_rule (codes "stripes") }
    ensures local { result.global ≡ false }
{
    option(
        alloc,
        "stripes",
        "S",
        "How many stripes the map is divided into: a power of two from 1 to 256, 16 if left out",
    )
}

/// The argument that has the words of a call.
fn call_words<'a>(alloc: Global) -> Arg<'a>
    ensures rule { rule_of result ≡ words_rule }
    ensures local { result.global ≡ false }
{
    Arg::new(alloc, "METHOD")
        .required(true)
        .action(ArgAction::Append)
        .num_args(1..)
        .value_names(&["METHOD", "ARGS"])
        .trailing_var_arg(true)
        .help(
            "The method, and behind it the key, the function and the values that it takes; or - for one call on each line of standard input",
        )
}

/// The command that serves the map in memory.
fn mem_line<'a>(alloc: Global) -> Command<'a>
    ensures app { app_of result ≡ mem_line }
    ensures local { (fields_of result).has_globals ≡ false }
{
    Command::new(alloc, "mem").about(
        "Answers request frames of standard input on standard output, over a map in memory",
    )
}

/// The command that makes a directory that of an empty map.
fn init_line<'a>(alloc: Global) -> Result<Command<'a>, AllocError>
    ensures app { IfOk result (λ command. app_of command ≡ init_line) }
    ensures local { IfOk result (λ command. (fields_of command).has_globals ≡ false) }
{
    Command::new(alloc, "init")
        .about("Makes a directory that of an empty map")
        .arg(directory(alloc))?
        .arg(stripes(alloc))
}

/// The command that looks at a directory.
fn check_line<'a>(alloc: Global) -> Result<Command<'a>, AllocError>
    ensures app { IfOk result (λ command. app_of command ≡ check_line) }
    ensures local { IfOk result (λ command. (fields_of command).has_globals ≡ false) }
{
    Command::new(alloc, "check")
        .about("Opens a directory, and prints what it stands for")
        .arg(directory(alloc))
}

/// The command, with the options that name the places of a server.
fn with_places<'a>(alloc: Global, command: Command<'a>) -> Result<Command<'a>, AllocError>
    ensures app { IfOk result (λ new. app_of new ≡ with_places (app_of command.entry)) }
    ensures local { IfOk result (λ new.
        (fields_of command.entry).has_globals ≡ false → (fields_of new).has_globals ≡ false) }
{
    let port = option(
        alloc,
        "port",
        "P",
        "A port on 127.0.0.1, from 1 to 65535, for each user of this machine; or --socket, or both",
    );
    let socket = option(
        alloc,
        "socket",
        "PATH",
        "The path of a Unix socket, for the users that its file's rights allow",
    );
    let mode = option(
        alloc,
        "socket-mode",
        "OCTAL",
        "The rights of the socket's file: 600, its user's alone, if left out",
    );
    command.arg(port)?.arg(socket)?.arg(mode)
}

/// The command that serves the map of a directory.
fn serve_line<'a>(alloc: Global) -> Result<Command<'a>, AllocError>
    ensures app { IfOk result (λ command. app_of command ≡ serve_line) }
    ensures local { IfOk result (λ command. (fields_of command).has_globals ≡ false) }
{
    let standby = flag(
        alloc,
        "standby",
        "Waits while another process has a lock of the directory, in place of ending",
    );
    let workers = option(
        alloc,
        "workers",
        "W",
        "How many threads serve connections: from 1 to 64, 4 if left out",
    );
    let connections = option(
        alloc,
        "connections",
        "C",
        "How many connections are served at a time: 10000 if left out",
    );
    let bytes = option(
        alloc,
        "checkpoint-bytes",
        "B",
        "How long the log is when a checkpoint is begun: 67108864 if left out",
    );
    let idle = option(
        alloc,
        "idle-seconds",
        "N",
        "For how long a client may send no request and take no reply: 0, for ever, if left out",
    );
    let ahead = option(
        alloc,
        "log-ahead",
        "A",
        "How many zeros are written ahead of a batch in a long log: 1048576 if left out, 0 for none",
    );
    let report = option(
        alloc,
        "report-seconds",
        "N",
        "Writes a record of its work each N seconds, and of each checkpoint: none if left out",
    );
    let line = Command::new(alloc, "serve")
        .about("Opens a directory, and serves its map to this machine until it is ended")
        .arg(directory(alloc))?;
    with_places(alloc, line)?
        .arg(stripes(alloc))?
        .arg(workers)?
        .arg(connections)?
        .arg(bytes)?
        .arg(idle)?
        .arg(ahead)?
        .arg(report)?
        .arg(standby)
}

/// The command that makes one call of a server.
fn call_line<'a>(alloc: Global) -> Result<Command<'a>, AllocError>
    ensures app { IfOk result (λ command. app_of command ≡ call_line) }
    ensures local { IfOk result (λ command. (fields_of command).has_globals ≡ false) }
{
    let server_port = option(
        alloc,
        "port",
        "P",
        "The server's port on this machine, from 1 to 65535; or --socket",
    );
    let socket = option(
        alloc,
        "socket",
        "PATH",
        "The path of the server's Unix socket, in place of --port",
    );
    let timeout = option(
        alloc,
        "timeout-ms",
        "N",
        "For how many milliseconds the server is waited for: 10000 if left out",
    );
    Command::new(alloc, "call")
        .about(
            "Makes one call of a server, or one for each line of standard input, and prints the replies",
        )
        .arg(server_port)?
        .arg(socket)?
        .arg(timeout)?
        .arg(call_words(alloc))
}

/// The command that plays a script.
fn sim_line<'a>(alloc: Global) -> Result<Command<'a>, AllocError>
    ensures app { IfOk result (λ command. app_of command ≡ sim_line) }
    ensures local { IfOk result (λ command. (fields_of command).has_globals ≡ false) }
{
    Command::new(alloc, "sim")
        .about(
            "Plays the script of a schedule over a disk in memory, and prints what came of each line",
        )
        .arg(file(alloc))
}

/// `dchm`, which wants one of its subcommands.
pub(crate) fn known_lines<'a>(alloc: Global) -> Result<Command<'a>, AllocError>
    ensures { IfOk result (λ command. app_of command ≡ command_line) }
{
    Command::new(alloc, "dchm")
        .about("A durable concurrent map from text keys to values")
        .version(VERSION)
        .subcommand_required(true)
        .subcommand(mem_line(alloc))?
        .subcommand(init_line(alloc)?)?
        .subcommand(check_line(alloc)?)?
        .subcommand(serve_line(alloc)?)?
        .subcommand(call_line(alloc)?)?
        .subcommand(sim_line(alloc)?)
}
