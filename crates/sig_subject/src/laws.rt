//! Laws over definitions: each is the contract of a function that does nothing.

ghost use Rattle.sig_subject.specs.Laws.{CoversItself, CoversOn, MatchesBothWays, ProperPartsRise, TextsIdentify};
ghost use Rattle.sig_subject.specs.Matching.{DecidesIdentity};
ghost use Rattle.sig_subject.specs.Reading.{ReadsSubjects};
ghost use Rattle.sig_subject.specs.Written.{ReadsProper, ReadsWritten, WritesBack, WritesCanonical};

/// Subjects are identical exactly where contracts see one value.
pub fn identity_is_decided()
    ensures { DecidesIdentity }
{}

/// A value is read as a subject exactly where the table of formats relates the two (RFC 9493, section 3.2; OpenID Shared
/// Signals Framework 1.0, section 4).
pub fn subjects_are_read()
    ensures { ReadsSubjects }
{}

/// A subject is written as the value that it was read of, where that value is in order and nests at most 127 deep, as
/// every value that a text spells and each of its members.
pub fn subjects_are_written_back()
    ensures { WritesBack }
{}

/// A subject that is read of such a value is proper.
pub fn read_subjects_are_proper()
    ensures { ReadsProper }
{}

/// What is written of a proper subject is read as an identical one.
pub fn written_subjects_are_read()
    ensures { ReadsWritten }
{}

/// A proper subject is written as a canonical value.
pub fn proper_subjects_are_canonical()
    ensures { WritesCanonical }
{}

/// The parts of a proper complex subject rise strictly in byte order of their names.
pub fn proper_parts_rise()
    ensures { ProperPartsRise }
{}

/// A proper subject covers itself.
pub fn covers_is_reflexive()
    ensures { CoversItself }
{}

/// What covers a subject covers all that this subject covers.
pub fn covers_is_transitive()
    ensures { CoversOn }
{}

/// Of two proper subjects each matches the other or none does.
pub fn matches_is_symmetric()
    ensures { MatchesBothWays }
{}

/// Two proper subjects are identical exactly where their JSON texts are equal.
pub fn texts_identify_proper_subjects()
    ensures { TextsIdentify }
{}
