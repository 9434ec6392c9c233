//! What follows from the definitions of held replies, and of the rule of the shared words.
ghost use Rattle.stripe_locks.specs.OneOrder.{IsDetermined, StandLast};
ghost use Rattle.stripe_locks.specs.Holding.{name_of_words, IsHeldAt, IsHeldOf};
ghost use Rattle.stripe_locks.specs.declared.held.Held.{Held};
ghost use Rattle.stripe_locks.specs.declared.stripes.Stripes.{Stripes};

/// A reply that is held at the name of the words of some stripes is held of these stripes: no other
/// stripes have words of that name.
pub fn held_at_is_held_of()
    ensures { (stripes : Stripes) (held : Held)
        → IsHeldAt (name_of_words stripes) held → IsHeldOf stripes held }
{}

/// No step is put into the past. Whatever a pass that has joined records by one atomic step that
/// keeps the rule of the shared words, it stands last in the one order, and finds what the words
/// hold then. That is so on each word: no such step lets another pass join, which would have no
/// seat.
pub fn new_steps_stand_last()
    ensures { StandLast }
{}

/// The order of all steps isn't chosen anew from step to step: what the seats know determines it.
/// Each pass that has joined is listed by one seat, also after two were compared.
pub fn seats_determine_the_order()
    ensures { IsDetermined }
{}
