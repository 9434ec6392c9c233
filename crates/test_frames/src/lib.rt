//! Tests of the program's edges: connections and their dialogues, its lines, the calls of a client, the
//! directories of a disk, and the files of sockets.
#![tactic(auto)]

#[cfg(test)]
mod checks;
#[cfg(test)]
mod client;
#[cfg(test)]
mod complaints;
#[cfg(test)]
mod dialogues;
#[cfg(test)]
mod directories;
#[cfg(test)]
mod interrupted;
#[cfg(test)]
mod layouts;
#[cfg(test)]
mod lent;
#[cfg(test)]
mod numbered;
#[cfg(test)]
mod printed_directories;
#[cfg(test)]
mod rows;
#[cfg(test)]
mod sockets;
#[cfg(test)]
mod steps;
#[cfg(test)]
mod turns;
