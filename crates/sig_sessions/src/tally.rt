//! What the rows at some places say of a subject, gathered in one pass.

ghost use Rattle.std.specs.Prelude.{◌≡◌, ◌&&◌, ◌||◌};
ghost use Rattle.sig_sessions.specs.Candidates as spec;
ghost use Rattle.sig_sessions.specs.Keys.{covering_keys, keys_of_parts};
ghost use Rattle.sig_sessions.specs.Marks as marks;

use crate::Row;
use crate::keys::{NO_PART, anchor_key, own_key};
use crate::marks::{Mark, has_mark};
use sig_places::{Places, PlacesOf};
use sig_subject::{Member, Subject, covers, identical};

/// What rows say of a subject: its own row, and those that cover it.
#[derive(Clone, Copy, PartialEq, Eq)]
pub(crate) struct Tally {
    /// There is a row of its own.
    pub known: bool,
    /// Its session lives.
    pub own_live: bool,
    /// Its session was revoked.
    pub own_revoked: bool,
    /// A session that covers it lives; and so on for each mark.
    pub live: bool,
    pub revoked: bool,
    pub enabled: bool,
    pub disabled: bool,
    pub purged: bool,
    pub compliant: bool,
    pub not_compliant: bool,
    pub reset: bool,
}

impl Tally {
    // Of no rows.
    fn none() -> Tally
        ensures { result ≡ spec.no_tally }
    {
        Tally {
            known: false,
            own_live: false,
            own_revoked: false,
            live: false,
            revoked: false,
            enabled: false,
            disabled: false,
            purged: false,
            compliant: false,
            not_compliant: false,
            reset: false,
        }
    }

    // With what a row says of the subject.
    fn with(self, row: &Row, subject: &Subject) -> Tally
        ensures { result ≡ spec.noted subject.now row.now self }
    {
        let own = identical(&row.subject, subject);
        let covers = covers(&row.subject, subject);
        Tally {
            known: either(self.known, own),
            own_live: or_marked(self.own_live, own, row, Mark::Live),
            own_revoked: or_marked(self.own_revoked, own, row, Mark::Revoked),
            live: or_marked(self.live, covers, row, Mark::Live),
            revoked: or_marked(self.revoked, covers, row, Mark::Revoked),
            enabled: or_marked(self.enabled, covers, row, Mark::Enabled),
            disabled: or_marked(self.disabled, covers, row, Mark::Disabled),
            purged: or_marked(self.purged, covers, row, Mark::Purged),
            compliant: or_marked(self.compliant, covers, row, Mark::Compliant),
            not_compliant: or_marked(self.not_compliant, covers, row, Mark::NotCompliant),
            reset: or_marked(self.reset, covers, row, Mark::Reset),
        }
    }
}

fn either(said: bool, says: bool) -> bool
    ensures { result ≡ said || says }
{
    said || says
}

// Whether it was said, or a row that counts says it.
fn or_marked(said: bool, counts: bool, row: &Row, mark: Mark) -> bool
    ensures { result ≡ said || (counts && marks.has_mark mark row.now) }
{
    said || (counts && has_mark(row, mark))
}

/// What the rows say that may cover the subject, and its own.
pub(crate) fn tally_of(rows: &[Row], places: &Places, subject: &Subject) -> Tally
    ensures { result ≡ spec.tally_under subject.now rows.now places.now.entries (covering_keys subject.now) spec.no_tally }
{
    match subject {
        Subject::Simple(simple) => with_rows(
            Tally::none(),
            rows,
            places.of(own_key(simple)),
            subject,
        ),
        Subject::Complex { members } => {
            let tally = with_rows(Tally::none(), rows, places.of(NO_PART), subject);
            with_parts(tally, rows, places, members.as_slice(), subject)
        }
    }
}

// With what the rows of each part say, and those whose anchor it is.
fn with_parts(
    tally: Tally,
    rows: &[Row],
    places: &Places,
    members: &[Member],
    subject: &Subject,
) -> Tally
    ensures { result ≡ spec.tally_under subject.now rows.now places.now.entries (keys_of_parts members.now) tally }
{
    let mut all = tally;
    for member in members {
        all = with_rows(all, rows, places.of(own_key(&member.simple)), subject);
        all = with_rows(all, rows, places.of(anchor_key(&member.simple)), subject);
    }
    all
}

// With what the rows at the places say.
fn with_rows(tally: Tally, rows: &[Row], places: PlacesOf<'_>, subject: &Subject) -> Tally
    ensures { result ≡ spec.tally_at subject.now rows.now places.entry tally }
{
    let mut all = tally;
    for place in places {
        if let Some(row) = rows.get(place) {
            all = all.with(row, subject);
        }
    }
    all
}
