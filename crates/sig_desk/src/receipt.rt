ghost use Rattle.std.specs.Prelude.{◌≡◌};

use sig_book::{Front, Naming};
use std::marker::Model;

/// What shows that the log of a link was compared: the history as it was then, with the log, where it could be added.
#[derive(Drop)]
pub struct Receipt<J: Naming, G> {
    pub(crate) number: u32,
    // Whether the history has the log.
    pub(crate) is_shown: bool,
    // The history so far.
    pub(crate) front: Front<J, G>,
}

impl<J: Naming, G> Model for Receipt<J, G> {
    ghost use Rattle.sig_desk.specs.Views.{ReceiptView};

    ghost Value = { ReceiptView G };

    ghost view = { λ r. record { number = r.number; is_shown = r.is_shown; front = r.front } };
}

impl<J: Naming, G> Receipt<J, G> {
    /// The number of the link.
    pub fn number(&self) -> u32
        ensures { result ≡ self.now.number }
    {
        self.number
    }
}

unsafe impl<J: Naming + Send, G: Send> Send for Receipt<J, G> {}
