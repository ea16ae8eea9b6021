//! What holds of every table of members.

ghost use Rattle.sig_json.specs.Members.{ReadsMember};

/// A payload has a member, with this kept of it, exactly where no check of the member fails and this is what is kept.
pub fn reads_member()
    ensures { ReadsMember }
{}
