use sig_receiver::Heard;
use sig_terms::Token;
use std::marker::Model;

/// The receiver's answer to a message.
#[derive(Drop)]
pub struct Reply {
    message: Token,
    heard: Heard,
}

impl Model for Reply {
    ghost use Rattle.sig_law.specs.World as world;

    ghost Value = { world.Reply };

    ghost view = { λ r. record { message = r.message; heard = r.heard } };
}

impl Reply {
    ghost use Rattle.std.specs.Prelude.{◌≡◌};

    /// The answer to this message.
    pub fn of(message: Token, heard: Heard) -> Reply
        ensures { result ≡ record { message = message; heard = heard } }
    {
        Reply { message, heard }
    }

    /// The message.
    pub fn message(&self) -> &Token
        ensures { result.now ≡ self.now.message }
    {
        &self.message
    }

    /// What the receiver answered.
    pub fn heard(&self) -> Heard
        ensures { result ≡ self.now.heard }
    {
        self.heard
    }
}
