//! The bytes that a reader holds.
ghost use Rattle.std.specs.Prelude.{◌≡◌, ◌≢◌, ◌+◌, ◌<◌, ◌≤◌, ◌^◌, ◌++◌, [], length, take, drop, IfErr, OnOk, OnErr};
ghost use Rattle.disk_model.specs.Calls.{Looks};
ghost use Rattle.disk_model.specs.Files.{now};
ghost use Rattle.file_pieces.specs.Counting.{Made};
ghost use Rattle.file_pieces.specs.Faults.{failed_in};

use crate::fault::ReadFault;
use disk_model::Disk;
use std::alloc::Global;

/// The bytes from `start` to `end`, behind those that were let go, and room for more behind them.
#[derive(Drop)]
pub(crate) struct Buffer {
    bytes: Vec<u8>,
    start: usize,
    end: usize,
    ghost ordered: { start ≤ end },
    ghost within: { end ≤ length bytes.items },
}

impl Buffer {
    ghost use Rattle.file_pieces.specs.Buffer.{held_in, room_in};

    pub(crate) fn new(alloc: Global) -> Buffer
        ensures { held_in result ≡ [] }
    {
        Buffer {
            bytes: Vec::new(alloc),
            start: 0,
            end: 0,
        }
    }

    /// How many bytes are held.
    pub(crate) fn len(&self) -> usize
        ensures { result ≡ length (held_in self.now) }
    {
        self.end - self.start
    }

    /// The held bytes.
    pub(crate) fn as_slice(&self) -> &[u8]
        ensures { result.now ≡ held_in self.now }
    {
        &self.bytes[self.start..self.end]
    }

    /// Lets go of the first bytes that are held.
    pub(crate) fn let_go(&mut self, count: usize)
        requires { count ≤ length (held_in self.old) }
        ensures { held_in self.new ≡ drop count (held_in self.old) }
    {
        self.start += count;
    }

    /// The bytes that were let go make room for more.
    fn move_to_front(&mut self)
        ensures held { held_in self.new ≡ held_in self.old }
        ensures room { room_in self.new + length (held_in self.new) ≡ length self.new.bytes.items }
    {
        let (start, end) = (self.start, self.end);
        self.bytes.copy_within(start..end, 0);
        self.start = 0;
        self.end = end - start;
    }

    /// Makes room for more bytes behind those that are held.
    pub(crate) fn make_room(&mut self, count: usize) -> Result<(), ReadFault>
        requires { length (held_in self.old) + count < 2 ^ 64 }
        ensures held { held_in self.new ≡ held_in self.old }
        ensures room { OnOk result (count ≤ room_in self.new) }
        ensures err { IfErr result (λ fault. fault ≡ ReadFault.NoMemory) }
    {
        if self.bytes.len() - self.end >= count {
            return Ok(());
        }
        self.move_to_front();
        let needed = self.end + count;
        if self.bytes.len() < needed && self.bytes.resize(needed, 0).is_err() {
            return Err(ReadFault::NoMemory);
        }
        Ok(())
    }

    /// Reads more bytes from this place of the file on, behind those that are held. It makes one device
    /// call.
    pub(crate) fn read_more<D: Disk>(
        &mut self,
        disk: &mut D,
        file: usize,
        at: usize,
        count: usize,
    ) -> Result<(), ReadFault>
        // One of the four files, and room for `count` bytes.
        requires file { file < 4 }
        requires room { count ≤ room_in self.old }

        // One device call, which only looks.
        ensures looks { Looks D.states D.failures D.honest (failed_in result) disk.old disk.new }
        ensures called { Made D.states 1 disk.old disk.new }

        // `count` bytes more are held, the file's if the disk is honest; none if refused.
        ensures size { OnOk result (length (held_in self.new) ≡ length (held_in self.old) + count) }
        ensures held { D.honest disk.new → OnOk result (held_in self.new
            ≡ held_in self.old ++ take count (drop at (now (D.states disk.old) file).seen)) }
        ensures same { OnErr result (held_in self.new ≡ held_in self.old) }

        // Refused: the call failed, or it gave too few bytes. No memory is asked for.
        ensures short { D.honest disk.new → at + count ≤ length (now (D.states disk.old) file).seen
            → IfErr result (λ fault. fault ≡ ReadFault.Failed) }
        ensures read { IfErr result (λ fault. fault ≢ ReadFault.NoMemory) }
    {
        let end = self.end;
        match disk.read(file, at, &mut self.bytes[end..end + count]) {
            Ok(given) if given == count => {
                self.end = end + count;
                Ok(())
            }
            Ok(_) => Err(ReadFault::Short),
            Err(_) => Err(ReadFault::Failed),
        }
    }
}
