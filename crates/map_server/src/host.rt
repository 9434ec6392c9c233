//! What the program needs of the system.

use cmd_serve::Figures;
use log::Log;
use std::fs::File;
use std::net::{Net, TcpListener, TcpStream};
use std::rt::Files;
use std::sync::Wait;
use std::thread::Threads;
use std::time::Clock;

/// Files and figures of them, sockets, the clock, threads, records, and leave to wait.
pub trait Host: Files<File = File>
    + Figures
    + Net<Listener = TcpListener, Stream = TcpStream>
    + Clock
    + Log
    + Threads
    + Wait
    + Sync {}

impl<
    T: Files<File = File>
        + Figures
        + Net<Listener = TcpListener, Stream = TcpStream>
        + Clock
        + Log
        + Threads
        + Wait
        + Sync,
> Host for T {}
