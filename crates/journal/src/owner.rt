//! One value that owns a keeper and the steps of its pass. Each of its methods is the keeper's call of
//! the same name, or that of `checkpoint_walk`, made whole: between two of them neither a sweep nor a
//! capture is between two of its steps.
ghost use Rattle.std.specs.Prelude.{◌≡◌, None, false};
ghost use Rattle.flusher.specs.Fitting.{IsKept};
ghost use Rattle.flusher.specs.KeeperSteps.{is_walking};

use disk_model::Disk;
use flusher::Keeper;
use std::marker::Model;
use ticket_order::Steps;

/// The keeper of one store with the steps of its pass.
#[derive(Drop)]
pub struct Journal<D: Disk, S: Steps> {
    pub(crate) keeper: Keeper<D>,
    pub(crate) steps: S,
}

impl<D: Disk, S: Steps> Model for Journal<D, S> {
    ghost use Rattle.std.specs.Coded.{codes};
    ghost use Rattle.ticket_order.specs.contracts.walk.Walk as walk_type;
    ghost use Rattle.journal.specs.Journals.{Owned, Rests};

    ghost Value = { Owned D S };

    ghost coded = { Prim.hlevel (codes, walk_type.the_row.coded) };

    ghost view = { λ journal. record { keeper = journal.keeper; steps = journal.steps } };

    ghost invariant = { λ journal.
        Rests D.states D.honest S.stripe_count S.recorded journal.keeper journal.steps };
}

impl<D: Disk, S: Steps> Journal<D, S> {
    /// The journal of a keeper between two of its calls, and of the steps of its pass.
    pub fn new(keeper: Keeper<D>, steps: S) -> Journal<D, S>
        requires kept { IsKept D.states D.honest (S.stripe_count steps) keeper (S.recorded steps) }
        requires still { is_walking keeper.sweeper.walking ≡ false }
        requires over { keeper.capture ≡ None }
        ensures { result ≡ record { keeper = keeper; steps = steps } }
    {
        Journal { keeper, steps }
    }

    /// The keeper, to be read.
    pub fn keeper(&self) -> &Keeper<D>
        ensures { result.now ≡ self.now.keeper }
    {
        &self.keeper
    }

    /// The steps of its pass, to be read.
    pub fn steps(&self) -> &S
        ensures { result.now ≡ self.now.steps }
    {
        &self.steps
    }
}

impl<D: Disk, S: Steps + Drop> Journal<D, S> {
    /// The disk, which the journal no longer needs.
    pub fn into_disk(self) -> D
        ensures { result ≡ self.keeper.disk }
    {
        let Journal {
            keeper,
            steps: _steps,
        } = self;
        keeper.into_disk()
    }
}
