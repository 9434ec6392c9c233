//! Lives of a store over one disk, and what is done with the disk between them.
use crate::formatting::tell_lengths;
use crate::showing::{tell_answer, tell_next, tell_part};
use crate::store::Store;
use atomic_methods::Part;
use call_text::stripes_named;
use disk_model::{Disk, Failure, Fill, MemDisk};
use java_hash::StripeCount;
use log_records::Version;
use map_types::Refusal;
use recovery::{format_as, open_parts, upgrade};
use run_cases::{hexadecimal, number};
use std::alloc::Global;
use std::mem;
use std::sync::Wait;

/// The files of a store with so many stripes.
#[derive(Drop)]
struct Directory {
    alloc: Global,
    disk: MemDisk,
    stripes: StripeCount,
}

fn version_of(word: &str) -> Result<Version, Refusal> {
    match word {
        "1" => Ok(Version::First),
        "2" => Ok(Version::Second),
        _ => Err(Refusal::WrongPhase),
    }
}

/// The directory of an empty map. The words are its stripes, its version, and perhaps behind how
/// many calls from now on its disk fails.
fn directory_of(alloc: Global, words: &[&str]) -> Result<Directory, Refusal> {
    let [stripes, version, after @ ..] = words else {
        return Err(Refusal::WrongPhase);
    };
    let Some(stripes) = stripes_named(stripes) else {
        return Err(Refusal::WrongPhase);
    };
    let mut disk = MemDisk::new(alloc);
    format_as(alloc, &mut disk, stripes, version_of(version)?)?;
    if let Some(word) = after.first() {
        let after = number(word)?;
        let fill = Fill::New;
        disk.plan(Some(Failure { after, fill }));
    }
    Ok(Directory {
        alloc,
        disk,
        stripes,
    })
}

fn fill_of(word: &str) -> Result<Fill, Refusal> {
    match word {
        "old" => Ok(Fill::Old),
        "new" => Ok(Fill::New),
        _ => match u8::from_str_radix(word, 16) {
            Ok(byte) => Ok(Fill::Byte(byte)),
            Err(_) => Err(Refusal::WrongPhase),
        },
    }
}

/// Tells the first bytes of a file.
fn tell_front(
    alloc: Global,
    disk: &mut MemDisk,
    file: usize,
    count: usize,
    told: &mut String,
) -> Result<(), Refusal> {
    if file >= 4 {
        return Err(Refusal::WrongPhase);
    }
    let mut bytes = vec![in alloc; 0; count]?;
    let Ok(count) = disk.read(file, 0, &mut bytes) else {
        return Err(Refusal::Failed);
    };
    bytes.truncate(count);
    Ok(told.push_str(hexadecimal(alloc, &bytes)?.as_str())?)
}

/// Tells the entries of the parts.
fn tell_parts(alloc: Global, parts: &[Part], told: &mut String) -> Result<(), Refusal> {
    for part in parts {
        tell_part(alloc, part, told)?;
    }
    Ok(())
}

/// Makes a step of the store, and tells what it answers.
fn tell_step<R: Wait>(
    rt: &R,
    store: &mut Store,
    text: &str,
    told: &mut String,
) -> Result<(), Refusal> {
    tell_next("; ", told)?;
    if text == "release" {
        let released = store.release()?;
        return Ok(told.push_str(released.as_str())?);
    }
    Ok(tell_answer("", store.take(rt, text), told)?)
}

impl Directory {
    /// The disk, in whose place an empty one is put.
    fn take_disk(&mut self) -> MemDisk {
        mem::replace(&mut self.disk, MemDisk::new(self.alloc))
    }

    /// A life of the store, which makes these steps: what each answers.
    fn live<R: Wait>(&mut self, rt: &R, steps: &str) -> Result<String, Refusal> {
        let mut told = String::new(self.alloc);
        let disk = self.take_disk();
        let mut store = Store::open(self.alloc, disk, self.stripes)?;
        for text in steps.split("; ") {
            tell_step(rt, &mut store, text, &mut told)?;
        }
        self.disk = store.into_disk();
        Ok(told)
    }

    /// Brings the directory to the newest version.
    fn upgrade(&mut self, told: &mut String) -> Result<(), Refusal> {
        let disk = self.take_disk();
        match upgrade(self.alloc, disk, self.stripes) {
            Ok(disk) => {
                self.disk = disk;
                Ok(told.push_str("upgraded")?)
            }
            Err((_disk, refusal)) => Err(refusal),
        }
    }

    /// Tells what is opened: how many commands, the limit of keys, and the entries.
    fn tell_opened(&mut self, told: &mut String) -> Result<(), Refusal> {
        let disk = self.take_disk();
        match open_parts(self.alloc, disk, self.stripes) {
            Ok((keeper, parts, commands, key_limit)) => {
                self.disk = keeper.into_disk();
                write!(told, "{commands} commands, key limit {key_limit}:")?;
                tell_parts(self.alloc, parts.as_slice(), told)
            }
            Err((_disk, refusal)) => Err(refusal),
        }
    }

    /// Does with the disk what is written so, and tells what comes of it.
    fn handle(&mut self, text: &str, told: &mut String) -> Result<(), Refusal> {
        let words: Vec<&str> = text.split(' ').collect(self.alloc)?;
        match words.as_slice() {
            ["stop", fill] => {
                self.disk.stop(&fill_of(fill)?)?;
                Ok(told.push_str("stopped")?)
            }
            ["upgrade"] => self.upgrade(told),
            ["lengths"] => tell_lengths(&mut self.disk, told),
            ["front", file, count] => {
                let file = number(file)? as usize;
                let count = number(count)? as usize;
                tell_front(self.alloc, &mut self.disk, file, count, told)
            }
            ["opened"] => self.tell_opened(told),
            _ => Err(Refusal::WrongPhase),
        }
    }

    /// Does with the disk one after another what is written so: what comes of each.
    fn rest(&mut self, steps: &str) -> Result<String, Refusal> {
        let mut told = String::new(self.alloc);
        for text in steps.split("; ") {
            tell_next("; ", &mut told)?;
            self.handle(text, &mut told)?;
        }
        Ok(told)
    }
}

/// What is told of `STRIPES VERSION > LIFE > DISK > LIFE > ..`: the steps of each life of a store,
/// and what is done with its disk behind it.
pub(crate) fn lived<R: AllocGlobal + Wait>(rt: &R, input: &str) -> Result<String, Refusal> {
    let alloc = rt.alloc();
    let (head, rest) = input.split_once(" > ").unwrap_or((input, ""));
    let words: Vec<&str> = head.split(' ').collect(alloc)?;
    let mut directory = directory_of(alloc, words.as_slice())?;
    let mut told = String::new(alloc);
    let mut is_life = true;
    for steps in rest.split(" > ") {
        let answers = if is_life {
            directory.live(rt, steps)?
        } else {
            directory.rest(steps)?
        };
        tell_next(" > ", &mut told)?;
        told.push_str(answers.as_str())?;
        is_life = !is_life;
    }
    Ok(told)
}
