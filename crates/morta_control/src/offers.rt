//! What an entry offers.

ghost use Rattle.std.specs.Prelude.{◌≡◌};
ghost use Rattle.morta_control.specs.ControllerInside.{offer_of};

use morta_task::{Entry, Scheme};

/// Which versions an entry offers beside `Seq`.
#[derive(Clone, Copy)]
pub(crate) struct Offer {
    pub any: bool,
    pub pipe: bool,
}

impl Offer {
    /// The versions that an entry offers.
    pub fn of(entry: &Entry) -> Offer
        ensures { result ≡ offer_of entry.now }
    {
        Offer {
            any: entry.offers(Scheme::Any),
            pipe: entry.offers(Scheme::Pipe),
        }
    }
}
