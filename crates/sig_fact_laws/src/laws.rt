//! Laws over the definitions: each function's contract is the law, and nothing calls it.

ghost use Rattle.sig_fact_laws.specs.Due.{TokensAreMadeWhereDue};
ghost use Rattle.sig_fact_laws.specs.Identifiers.{IdentifiersDiffer};
ghost use Rattle.sig_fact_laws.specs.Leaves.{CarryingLeavesTheSetup, SettingUpLeavesWhatIsOwed};

/// However often streams are configured, and subjects are listed and unlisted, each stream owes what it owed (Shared Signals
/// Framework 1.0, sections 8.1.1 and 8.1.3).
pub fn setting_up_leaves_what_is_owed()
    ensures { SettingUpLeavesWhatIsOwed }
{}

/// However often news are published, verifications are asked for and tokens are settled, each stream has the client, the
/// number, the configuration, the status with its reason and the list that it had (Shared Signals Framework 1.0, section 8.1).
pub fn carrying_leaves_the_setup()
    ensures { CarryingLeavesTheSetup }
{}

/// A publication makes a token for the stream of a name exactly where such a stream stands, isn't disabled, delivers events of
/// that type, and has that subject (Shared Signals Framework 1.0, sections 7.1, 8.1.1, 8.1.2 and 8.1.3).
pub fn tokens_are_made_where_due()
    ensures { TokensAreMadeWhereDue }
{}

/// Of the tokens that what is whole owes and all those that a sound history makes over it, no two have one identifier (RFC
/// 8417, section 2.2).
pub fn identifiers_differ()
    ensures { IdentifiersDiffer }
{}
