//! What both kinds of keys have in common: a name, and that they tell what was signed with them.

ghost use Rattle.std.specs.Prelude.{◌≡◌, Some, option_copied};

use sig_json::Text;
use sig_jws::{Compact, PreparedKey};
use sig_rs256::PreparedRsaKey;

/// A key that may have signed a token.
pub trait Signer {
    ghost use Rattle.std.specs.Prelude.{ℕ, List, Bool, Option};
    ghost use Rattle.sig_jws.specs.declared.compact.Compact.{Compact};

    ghost name: { Self → Option (List ℕ) };

    ghost signed: { Option Compact → Self → Bool };

    /// Its name, where it has one (RFC 7515, section 4.1.4).
    fn name(&self) -> Option<&Text>
        ensures { option_copied result ≡ name self.now };

    /// Whether the token was signed with it (RFC 7515, section 5.2, step 8).
    fn signed(&self, token: &Compact) -> bool
        ensures { result ≡ signed (Some token.now) self.now };
}

impl Signer for PreparedKey {
    ghost use Rattle.sig_set.specs.Header.{has_mac, secret_name};

    ghost name = { secret_name };

    ghost signed = { has_mac };

    fn name(&self) -> Option<&Text> {
        self.key().kid.as_ref()
    }

    fn signed(&self, token: &Compact) -> bool {
        self.verifies(token)
    }
}

impl Signer for PreparedRsaKey {
    ghost use Rattle.sig_set.specs.Header.{has_signature, public_name};

    ghost name = { public_name };

    ghost signed = { has_signature };

    fn name(&self) -> Option<&Text> {
        self.key().kid()
    }

    fn signed(&self, token: &Compact) -> bool {
        self.verifies(token.input.as_slice(), token.mac.as_slice())
    }
}
