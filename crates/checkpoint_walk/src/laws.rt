//! What holds of every keeper, also between the steps of a capture.
ghost use Rattle.std.specs.Prelude.{ℕ, List};
ghost use Rattle.disk_model.specs.Files.{now};
ghost use Rattle.map_types.specs.declared.commands.Command.{Command};
ghost use Rattle.ticket_order.specs.declared.record.Record.{Record};
ghost use Rattle.ticket_order.specs.Legality.{history_of};
ghost use Rattle.flusher.specs.Fitting.{StopsFit};
ghost use Rattle.checkpoint_walk.specs.Walking.{FitsWalking};

use disk_model::Disk;
use flusher::{Keeper, laws as keeper_laws};
use store_layout::laws as layout_laws;

/// Whatever a stop leaves of the four files stands for a front of the history that the keeper's
/// pass has seen. That front has the committed commands, and no more than the staged ones besides.
pub fn stops_while_capturing<D: Disk>(keeper: &Keeper<D>)
    ensures { (n : ℕ) (done : List Command) (p : Record)
        → FitsWalking D.states D.honest n done keeper.now p → D.honest keeper.now.disk
        → StopsFit (history_of p) keeper.now (now (D.states keeper.now.disk)) }
{
    keeper_laws::stops_of_a_keeper(keeper);
    layout_laws::laws_of_found();
}
