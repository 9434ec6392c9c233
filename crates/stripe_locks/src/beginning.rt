//! Where the history of shared stripes begins, as a value of no bytes.
ghost use Rattle.std.specs.Prelude.{◌≡◌};
ghost use Rattle.std.specs.Borrow.{ftrue};
ghost use Rattle.ticket_order.specs.contracts.record.Opening as opening_type;
ghost use Rattle.ticket_order.specs.declared.record.Opening.{Opening};
ghost use Rattle.one_history.specs.Turns.{opening_of};

use atomic_methods::Part;
use std::marker::{Model, PhantomData};

/// Where the history begins, which contracts alone read: the union of the parts is kept nowhere.
#[derive(Drop)]
pub struct Beginning {
    marker: PhantomData<u8>,
    pub ghost opening: { Opening } by { opening_type.the_row.coded },
}

impl Model for Beginning {
    ghost also_owns = { λ _. ftrue };
}

impl Beginning {
    /// The first `first` changes are known by the map that these parts make. The keys of later ones
    /// have at most so many bytes.
    pub(crate) fn new(_first: u64, _parts: &[Part], _key_limit: u16) -> Beginning
        ensures { result.opening ≡ opening_of _first _parts.now _key_limit }
    {
        Beginning {
            marker: PhantomData,
        }
    }
}
