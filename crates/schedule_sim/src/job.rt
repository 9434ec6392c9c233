//! What a worker is doing.
ghost use Rattle.std.specs.Prelude.{◌≡◌};
ghost use Rattle.schedule_sim.specs.Workers.{answered_of, called_of, released_of, IsOfCall, IsOfRelease};

use sim_rules::End;
use ticket_order::{Held, Released, Stepped, Walk};

#[derive(Drop)]
pub(crate) enum Job {
    Idle,
    /// A change or a read is under way.
    Calling(Walk),
    /// Its reply is held.
    Waiting(Held),
    /// The reply's release is under way.
    Releasing(Walk),
}

/// What a step of a change or a read leaves to the worker.
pub(crate) fn called(stepped: Stepped) -> (Job, End)
    requires { IsOfCall stepped }
    ensures { result ≡ called_of stepped }
{
    match stepped {
        Stepped::More(walk) => (Job::Calling(walk), End::Goes),
        Stepped::Held(held) => {
            let position = held.position().number();
            (Job::Waiting(held), End::Held(position))
        }
        Stepped::Refused(refusal) => (Job::Idle, End::Refused(refusal)),
        Stepped::Released(_) | Stepped::Swept(_) | Stepped::Captured(_) => unreachable!(),
    }
}

/// What the answer of a release leaves to the worker.
fn answered(released: Released) -> (Job, End)
    ensures { result ≡ answered_of released }
{
    match released {
        Released::Reply(position, reply) => {
            let position = position.number();
            (Job::Idle, End::Replied { position, reply })
        }
        Released::NotYet(held) => (Job::Waiting(held), End::NotYet),
        Released::Failed => (Job::Idle, End::Failed),
    }
}

/// What a step of a release leaves to the worker.
pub(crate) fn released(stepped: Stepped) -> (Job, End)
    requires { IsOfRelease stepped }
    ensures { result ≡ released_of stepped }
{
    match stepped {
        Stepped::More(walk) => (Job::Releasing(walk), End::Goes),
        Stepped::Released(released) => answered(released),
        Stepped::Held(_) | Stepped::Refused(_) | Stepped::Swept(_) | Stepped::Captured(_) => {
            unreachable!()
        }
    }
}
