//! What a keeper writes ahead of its batches.
ghost use Rattle.std.specs.Prelude.{◌≡◌, ◌⊎◌, ℕ, List, true, false, Ok, IfErr, OnOk, OnErr};
ghost use Rattle.disk_model.specs.Moments.{AtEachMoment};
ghost use Rattle.map_types.specs.declared.commands.Command.{Command};
ghost use Rattle.ticket_order.specs.declared.record.Record.{Record};
ghost use Rattle.ticket_order.specs.Legality.{history_of};
ghost use Rattle.gate_log.specs.LogSteps.{MayAdvance};
ghost use Rattle.gate_log.specs.Ahead.{WritesAhead};
ghost use Rattle.flusher.specs.Fitting.{Fits, IsFitting, StillFits, StopsFit};

use crate::keeper::Keeper;
use disk_model::Disk;
use gate_log::Zeros;
use map_types::Refusal;
use store_invariant::laws;

impl<D: Disk> Keeper<D> {
    /// From now on `count` zeros are written ahead at a time; with 0, as at first, none are. Their
    /// memory is got here. Refused with `NoMemory`.
    pub fn set_ahead(&mut self, count: usize) -> Result<(), Refusal>
        ensures ok { OnOk result (self.new ≡ record self.old { zeros = count }) }
        ensures no_other { IfErr result (λ refusal. refusal ≡ Refusal.NoMemory) }
        ensures err { OnErr result (self.new ≡ self.old) }
        ensures fits { StillFits D.states D.honest self.old self.new }
    {
        self.zeros = Zeros::new(self.alloc, count)?;
        Ok(())
    }

    /// Has the newest log write the zeros, and notes whether the device call failed.
    fn write_zeros(&mut self) -> Result<(), Refusal>
        // Nothing has failed, and an honest disk holds what the log says.
        requires stands { MayAdvance D.states D.honest self.old.log self.old.disk }
        requires works { (self.old.is_broken ≡ false) × (self.old.log.is_broken ≡ false) }

        // Either nothing is done, or one call that is due writes the zeros.
        ensures ahead { ((result ≡ Ok tt) × (self.new ≡ self.old))
            ⊎ WritesAhead D.states D.failures D.honest self.old.zeros self.old.log self.new.log
            self.old.disk self.new.disk result }

        // The only error is a failed call, which is noted; other fields stay.
        ensures ok { OnOk result (self.new.is_broken ≡ false) }
        ensures err { IfErr result (λ refusal. (refusal ≡ Refusal.Failed)
            × (self.new.is_broken ≡ true)) }
        ensures same { self.new ≡ record self.old {
          disk = self.new.disk;
          log = self.new.log;
          is_broken = self.new.is_broken;
        } }
    {
        match self.log.write_ahead(&self.zeros, &mut self.disk) {
            Ok(()) => Ok(()),
            Err(refusal) => {
                self.is_broken = true;
                Err(refusal)
            }
        }
    }

    /// Writes the zeros behind the closed gate of the newest log, ahead of the batch that is
    /// staged, so that its frame doesn't lengthen the file. If that isn't due, it makes no device
    /// call. After a device failure no call is made. It takes no memory.
    pub fn write_ahead(&mut self) -> Result<(), Refusal>
        // The keeper's invariant holds.
        requires { IsFitting D.states D.honest self.old }

        // After a device failure it is refused, and nothing changes.
        ensures failed { self.old.is_broken ≡ true
            → (result ≡ Err Refusal.Failed) × (self.new ≡ self.old) }

        // Else one due call writes the zeros, or none; a failed one is noted.
        ensures ahead { self.old.is_broken ≡ false
            → ((result ≡ Ok tt) × (self.new ≡ self.old))
            ⊎ WritesAhead D.states D.failures D.honest self.old.zeros self.old.log self.new.log
            self.old.disk self.new.disk result }
        ensures works { OnOk result (self.new.is_broken ≡ false) }
        ensures err { IfErr result (λ refusal. (refusal ≡ Refusal.Failed)
            × (self.new.is_broken ≡ true)) }

        // On an honest disk no stop, at any moment, loses what was committed.
        ensures any_moment { (n : ℕ) (done : List Command) (p : Record)
            → Fits D.states D.honest n done self.old p → D.honest self.old.disk
            → AtEachMoment D.states self.old.disk self.new.disk (StopsFit (history_of p) self.old) }

        // The invariant goes on, and no other field changes.
        ensures fits { StillFits D.states D.honest self.old self.new }
        ensures same { self.new ≡ record self.old {
          disk = self.new.disk;
          log = self.new.log;
          is_broken = self.new.is_broken;
        } }
    {
        laws::steps_of_logs();
        laws::stops_of_a_store();
        if self.is_broken {
            return Err(Refusal::Failed);
        }
        self.write_zeros()
    }
}
