ghost use Rattle.sig_caep.specs.Lists.{principals, principal_text};

use sig_json::{Listed, Same};

/// Whose risk level changed (CAEP 1.0, section 3.8).
#[derive(Clone, Copy, PartialEq, Eq)]
pub enum Principal {
    /// A user.
    User,
    /// A device.
    Device,
    /// A session.
    Session,
    /// A tenant.
    Tenant,
    /// A unit of an organization.
    OrgUnit,
    /// A group.
    Group,
}

impl Listed for Principal {
    ghost use Rattle.sig_caep.specs.declared.principal.Principal.TheVariants as whose;

    ghost values = { principals };

    ghost text_of = { principal_text };

    ghost otherwise = { whose.User };

    #[tactic(auto, unfolding(crate::specs::Lists::principals))]
    fn values() -> &'static [Principal] {
        &[
            Principal::User,
            Principal::Device,
            Principal::Session,
            Principal::Tenant,
            Principal::OrgUnit,
            Principal::Group,
        ]
    }

    #[tactic(auto, unfolding(crate::specs::Lists::principal_text))]
    fn as_str(&self) -> &'static str {
        match self {
            Principal::User => "USER",
            Principal::Device => "DEVICE",
            Principal::Session => "SESSION",
            Principal::Tenant => "TENANT",
            Principal::OrgUnit => "ORG_UNIT",
            Principal::Group => "GROUP",
        }
    }
}

impl Same for Principal {
    fn same(&self, other: &Principal) -> bool {
        self == other
    }
}
