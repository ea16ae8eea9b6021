//! Laws over definitions: each is the contract of a function that does nothing.

ghost use Rattle.sig_event.specs.Events.{ReadsEvents, ReadsProper, ReadsWritten, TextIsPayload, WritesCanonical};
ghost use Rattle.sig_event.specs.News.{ReadsProperNews, SameNewsAreEqual};
ghost use Rattle.sig_event.specs.Types.{ListsPublished};

/// An event is what a URI and a payload say of a subject exactly where it is read of them.
pub fn events_are_read()
    ensures { ReadsEvents }
{}

/// An event that is read of a payload in order that nests at most 127 deep, as any that a text spells and each of its
/// members, is proper, and is written no deeper than that payload.
pub fn read_events_are_proper()
    ensures { ReadsProper }
{}

/// What is written of a proper event is read as an equal one.
pub fn written_events_are_read()
    ensures { ReadsWritten }
{}

/// What is written of a proper event is a canonical value.
pub fn proper_events_are_canonical()
    ensures { WritesCanonical }
{}

/// The text of a proper event's payload is that of the payload itself, with nothing put in place of a fraction.
pub fn text_of_a_proper_event_is_its_payload()
    ensures { TextIsPayload }
{}

/// The list of the types that are published has a type's URI exactly where the type is published.
pub fn published_types_are_listed()
    ensures { ListsPublished }
{}

/// News with proper events are the same exactly where they are equal: one event about one subject.
pub fn same_news_are_equal()
    ensures { SameNewsAreEqual }
{}

/// A subject and an event that are read of the members of a body are news that may be published, where the event's type
/// is: both nest in a token no deeper than in that body.
pub fn read_news_are_proper()
    ensures { ReadsProperNews }
{}
