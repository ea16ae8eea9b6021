//! What a row of the session table knows of its subject. Each is a closed list, in which a value's place is its number.

ghost use Rattle.sig_sessions.specs.Spelled.{account_text, accounts, device_text, devices, opt_text, opts, session_text, sessions};

use sig_json::{Listed, Same};

/// A session.
#[derive(Clone, Copy, PartialEq, Eq)]
pub enum Session {
    /// Nothing is known of it.
    Unseen,
    /// It was established or presented.
    Live,
    /// It was revoked.
    Revoked,
}

/// An account.
#[derive(Clone, Copy, PartialEq, Eq)]
pub enum Account {
    /// Nothing is known of it.
    Unseen,
    /// It was enabled.
    Enabled,
    /// It was disabled.
    Disabled,
    /// It was deleted for good.
    Purged,
}

/// A device's compliance.
#[derive(Clone, Copy, PartialEq, Eq)]
pub enum Device {
    /// Nothing is known of it.
    Unseen,
    /// It is compliant.
    Compliant,
    /// It isn't compliant.
    NotCompliant,
}

/// Whether the subject takes part.
#[derive(Clone, Copy, PartialEq, Eq)]
pub enum Opt {
    /// Nothing is known of it.
    Unseen,
    /// It takes part.
    In,
    /// It began to opt out.
    Leaving,
    /// It has opted out.
    Out,
}

impl Listed for Session {
    ghost use Rattle.sig_sessions.specs.declared.standing.Session.TheVariants.{Unseen};

    ghost values = { sessions };

    ghost text_of = { session_text };

    ghost otherwise = { Unseen };

    fn values() -> &'static [Session] {
        &[Session::Unseen, Session::Live, Session::Revoked]
    }

    fn as_str(&self) -> &'static str {
        match self {
            Session::Unseen => "unseen",
            Session::Live => "live",
            Session::Revoked => "revoked",
        }
    }
}

impl Listed for Account {
    ghost use Rattle.sig_sessions.specs.declared.standing.Account.TheVariants.{Unseen};

    ghost values = { accounts };

    ghost text_of = { account_text };

    ghost otherwise = { Unseen };

    fn values() -> &'static [Account] {
        &[
            Account::Unseen,
            Account::Enabled,
            Account::Disabled,
            Account::Purged,
        ]
    }

    fn as_str(&self) -> &'static str {
        match self {
            Account::Unseen => "unseen",
            Account::Enabled => "enabled",
            Account::Disabled => "disabled",
            Account::Purged => "purged",
        }
    }
}

impl Listed for Device {
    ghost use Rattle.sig_sessions.specs.declared.standing.Device.TheVariants.{Unseen};

    ghost values = { devices };

    ghost text_of = { device_text };

    ghost otherwise = { Unseen };

    fn values() -> &'static [Device] {
        &[Device::Unseen, Device::Compliant, Device::NotCompliant]
    }

    fn as_str(&self) -> &'static str {
        match self {
            Device::Unseen => "unseen",
            Device::Compliant => "compliant",
            Device::NotCompliant => "not-compliant",
        }
    }
}

impl Listed for Opt {
    ghost use Rattle.sig_sessions.specs.declared.standing.Opt.TheVariants.{Unseen};

    ghost values = { opts };

    ghost text_of = { opt_text };

    ghost otherwise = { Unseen };

    fn values() -> &'static [Opt] {
        &[Opt::Unseen, Opt::In, Opt::Leaving, Opt::Out]
    }

    fn as_str(&self) -> &'static str {
        match self {
            Opt::Unseen => "unseen",
            Opt::In => "in",
            Opt::Leaving => "leaving",
            Opt::Out => "out",
        }
    }
}

impl Same for Session {
    fn same(&self, other: &Session) -> bool {
        self == other
    }
}

impl Same for Account {
    fn same(&self, other: &Account) -> bool {
        self == other
    }
}

impl Same for Device {
    fn same(&self, other: &Device) -> bool {
        self == other
    }
}

impl Same for Opt {
    fn same(&self, other: &Opt) -> bool {
        self == other
    }
}
