// What each kind of step tells.
use crate::standing::Standing;
use crate::view::View;
use atomic_table::Play;

pub(crate) struct Draw;

impl<X, O, E> Play<Option<X>, View<O, E>> for Draw {
    ghost use Rattle.wm_turn.specs.Kinds.{Draws};

    ghost then = { Draws };
}

pub(crate) struct Look;

impl<X: Standing> Play<Option<X>, View<X::Opening, X::Entry>> for Look {
    ghost use Rattle.wm_turn.specs.Kinds.{Looks};

    ghost then = { Looks X.opening X.stands X.mark };
}

pub(crate) struct Check;

impl<X, O, E> Play<Option<X>, View<O, E>> for Check {
    ghost use Rattle.wm_turn.specs.Kinds.{Checks};

    ghost then = { Checks };
}

pub(crate) struct Read;

impl<X, O, E> Play<Option<X>, View<O, E>> for Read {
    ghost use Rattle.wm_turn.specs.Kinds.{Reads};

    ghost then = { Reads };
}

pub(crate) struct Enter;

impl<X: Standing> Play<Option<X>, View<X::Opening, X::Entry>> for Enter {
    ghost use Rattle.wm_turn.specs.Kinds.{Enters};

    ghost then = { Enters X.opening X.stands X.mark };
}

pub(crate) struct Mark;

impl<X: Standing> Play<Option<X>, View<X::Opening, X::Entry>> for Mark {
    ghost use Rattle.wm_turn.specs.Kinds.{Marks};

    ghost then = { Marks X.opening X.stands X.mark };
}

pub(crate) struct PassOn;

impl<X, O, E> Play<Option<X>, View<O, E>> for PassOn {
    ghost use Rattle.wm_turn.specs.Kinds.{PassesOn};

    ghost then = { PassesOn };
}

pub(crate) struct Recall;

impl<X: Standing> Play<Option<X>, View<X::Opening, X::Entry>> for Recall {
    ghost use Rattle.wm_turn.specs.Kinds.{Recalls};

    ghost then = { Recalls X.by X.fact };
}
