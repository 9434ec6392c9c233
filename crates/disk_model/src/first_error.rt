//! The first call of a directory's files that failed, and the files themselves, told apart from the disk.
ghost use Rattle.std.specs.Prelude.{◌≡◌, ◌<◌, IfOk};

use crate::device::{Device, DeviceCall, NAMES, removal};
use std::alloc::{AllocError, Global};
use std::io;
use std::sync::{Arc, OnceLock};
use thiserror::Error;

/// A call of a file that failed.
#[derive(Debug, Drop, Error)]
#[error("{file}: {error}")]
pub struct FileError {
    /// The name of the file in its directory.
    pub file: &'static str,
    /// What the system said.
    pub error: io::Error,
}

/// What a disk and those who watch it share.
#[derive(Drop)]
struct Watched {
    device: Device,
    error: OnceLock<FileError>,
}

/// The first call of a directory's files that failed, if any has, the call that is under way, and whether
/// the files still have names. It is shared with the `DirDisk` that makes the calls, so it still tells of
/// them after the disk was handed to a keeper. Any thread may ask, and none waits for another.
#[derive(Drop)]
pub struct FirstError {
    watched: Arc<Watched, Global>,
}

impl FirstError {
    /// Of no files: nothing ever fails.
    pub fn new(alloc: Global) -> Result<FirstError, AllocError> {
        FirstError::of(alloc, Device::absent())
    }

    /// Of these files, of which nothing has failed yet.
    pub(crate) fn of(alloc: Global, device: Device) -> Result<FirstError, AllocError>
        ensures { IfOk result (λ it. it.watched.value.device ≡ device) }
    {
        let error = OnceLock::new();
        let watched = Arc::new(alloc, Watched { device, error })?;
        Ok(FirstError { watched })
    }

    /// A second value for the same calls.
    pub fn again(&self) -> Result<FirstError, AllocError> {
        let watched = Arc::try_clone(&self.watched)?;
        Ok(FirstError { watched })
    }

    /// The files whose calls these are.
    pub(crate) fn device(&self) -> &Device
        ensures { result.now ≡ self.now.watched.value.device }
    {
        &self.watched.device
    }

    /// The call, once one has failed.
    pub fn get(&self) -> Option<&FileError> {
        self.watched.error.get()
    }

    /// The device call that was begun and has not ended, if there is one. It asks no device. If the same
    /// value comes again, that call has not ended in between.
    pub fn under_way(&self) -> Option<DeviceCall> {
        self.device().under_way()
    }

    /// Whether one of the four files has no name any more, as after `rm -r`: what is written to it is
    /// lost once the process ends. Then this is the first error, unless there was one, and each call of
    /// the disk fails from now on. It asks the system about each file, and so may wait for a file system
    /// that doesn't answer.
    pub fn note_removal(&self) -> bool {
        let Some((file, found)) = self.device().nameless() else {
            return false;
        };
        self.note(file, removal());
        self.device().give_up(found);
        true
    }

    /// Keeps the error, if it is the first.
    pub(crate) fn note(&self, file: usize, error: io::Error)
        requires { file < 4 }
    {
        let file = NAMES[file];
        let _kept = self.watched.error.try_set(FileError { file, error });
    }
}
