//! What follows from the contracts of a worker's calls.
ghost use Rattle.cmd_serve.specs.Serving.{BegunRequestsComplete};

use durable_map::laws as map_laws;

/// A request that a worker has begun, and answers after other moves of its connection, is completed as a
/// whole call of the running store is.
pub fn begun_requests_complete()
    ensures { BegunRequestsComplete }
{
    map_laws::begun_calls_complete();
}
