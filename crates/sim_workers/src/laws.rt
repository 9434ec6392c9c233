//! Laws of the workers of a life, each as the contract of a function.
ghost use Rattle.sim_workers.specs.Laws.{ChangeFits, ReadFits, StepFits, ReleaseFits, ChangeBegins, ChangeTurnedDown, ReadBegins, ReleaseBegins, CallSteps, ReleaseSteps, WalksAreUnderWay, CallsLeave, ReleasesLeave, LifeBegins, FreeIsTold, HeldIsTold, KeeperRests, KeeperSteps};

/// Which events of a worker fit, by what it does.
pub fn fits_of_workers()
    ensures change { ChangeFits }
    ensures read { ReadFits }
    ensures step { StepFits }
    ensures release { ReleaseFits }
{}

/// What holds of the workers when a life begins.
pub fn beginnings_of_lives()
    ensures stand { LifeBegins }
{}

/// A worker begins a walk; or its change is refused before that, since its key is too long.
pub fn beginnings_of_walks()
    ensures change { ChangeBegins }
    ensures turned_down { ChangeTurnedDown }
    ensures read { ReadBegins }
    ensures release { ReleaseBegins }
{}

/// What the walk of a worker may do, and what it may leave.
pub fn walks_of_workers()
    ensures under_way { WalksAreUnderWay }
    ensures calls { CallsLeave }
    ensures releases { ReleasesLeave }
{}

/// A worker's walk makes a step.
pub fn steps_of_workers()
    ensures calls { CallSteps }
    ensures releases { ReleaseSteps }
{}

/// The word of a stripe is held in the world exactly if a pass holds the stripe.
pub fn words_of_stripes()
    ensures free { FreeIsTold }
    ensures held { HeldIsTold }
{}

/// What the keeper leaves to the workers, with a step on the words and without one.
pub fn steps_of_the_keeper()
    ensures rests { KeeperRests }
    ensures steps { KeeperSteps }
{}
