//! Tests of the running store: its calls on threads beside its loops, views and bulk answers over it, in
//! memory and over a directory; and of a served map over sockets of this machine, whose workers and loops
//! are on threads of their own.
#![tactic(auto)]

#[cfg(test)]
mod begun;
#[cfg(test)]
mod calls;
#[cfg(test)]
mod clients;
#[cfg(test)]
mod directory;
#[cfg(test)]
mod failing;
#[cfg(test)]
mod leading;
#[cfg(test)]
mod limits;
#[cfg(test)]
mod maps;
#[cfg(test)]
mod part_steps;
#[cfg(test)]
mod pipeline;
#[cfg(test)]
mod sharing;
#[cfg(test)]
mod standing;
#[cfg(test)]
mod view_steps;
#[cfg(test)]
mod view_waits;
#[cfg(test)]
mod views;
#[cfg(test)]
mod whole_map;
