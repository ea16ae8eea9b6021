//! Laws over definitions: each is the contract of a function that does nothing.

ghost use Rattle.sig_stream.specs.Endpoints.{ReadsEndpoints};
ghost use Rattle.sig_stream.specs.Publications.{ReadsProperPublications};

/// A URL spells an endpoint exactly where that endpoint is read of it.
pub fn endpoints_are_read()
    ensures { ReadsEndpoints }
{}

/// What is read of the body of a publication is one under a UUID with hyphens and in lower case, of news that may be
/// published, where the body is in order and nests at most 127 deep, as any that a text spells.
pub fn read_publications_are_proper()
    ensures { ReadsProperPublications }
{}
