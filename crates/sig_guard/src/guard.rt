//! What an application does with a token, and what it asks of the table.

ghost use Rattle.std.specs.Prelude.{◌≡◌, None, OnErr, OnOk, Some};
ghost use Rattle.sig_json.specs.Answers.{Answers};
ghost use Rattle.sig_sessions.specs.Verdicts.{verdict_of};
ghost use Rattle.sig_set.specs.Judgement.{judged, result_of};
ghost use Rattle.sig_guard.specs.Guard as spec;
ghost use Rattle.sig_guard.specs.Guard.{answer_to, pairs_after, rows_after};

use sig_inbox::{Found, Pair, Seen};
use sig_json::Text;
use sig_sessions::Table;
use sig_set::{Claims, LastHeader, PreparedTrust, Refusal, judge_prepared};
use sig_subject::Subject;
use std::alloc::Global;

/// An application that takes the tokens of one issuer, and guards one session by them.
#[derive(Drop)]
pub struct Guard {
    /// What its values grow with.
    pub alloc: Global,
    /// Whom it trusts.
    pub trust: PreparedTrust,
    /// The issuer for whom whoever brings a token speaks.
    pub issuer: Text,
    /// The session that it guards.
    pub session: Subject,
    /// The tokens that it took.
    pub seen: Seen,
    /// What they made known.
    pub table: Table,
    /// The header that was judged last.
    pub last: LastHeader,
}

// The issuer and the identifier of a token; the rest of what it says ends here.
fn pair_of(claims: Claims) -> Pair
    ensures { result ≡ spec.pair_of claims }
{
    let Claims { iss, jti, .. } = claims;
    Pair { iss, jti }
}

impl Guard {
    /// Judges a token, and takes it where it is valid and new. A repeat has no second effect: an old token that is
    /// brought again must not undo what a later one told. A refusal, `Memory` among them, leaves all as it was.
    pub fn take(&mut self, token: &[u8]) -> Result<Found, Refusal>
        ensures answer { Answers Refusal.Memory result (answer_to self.old.seen.pairs (result_of (judged self.old.trust (Some self.old.issuer) None token.now))) }
        ensures rows { OnOk result (self.new.table.rows ≡ rows_after self.old.seen.pairs self.old.table.rows (result_of (judged self.old.trust (Some self.old.issuer) None token.now))) }
        ensures pairs { OnOk result (self.new.seen.pairs ≡ pairs_after self.old.seen.pairs (result_of (judged self.old.trust (Some self.old.issuer) None token.now))) }
        ensures err_rows { OnErr result (self.new.table.rows ≡ self.old.table.rows) }
        ensures err_pairs { OnErr result (self.new.seen.pairs ≡ self.old.seen.pairs) }
        ensures trust { self.new.trust ≡ self.old.trust }
        ensures issuer { self.new.issuer ≡ self.old.issuer }
        ensures session { self.new.session ≡ self.old.session }
    {
        let claims = judge_prepared(
            self.alloc,
            &self.trust,
            &mut self.last,
            Some(&self.issuer),
            None,
            token,
        )?;
        let change = self.table.prepare(&claims)?;
        let pair = pair_of(claims);
        match self.seen.add(pair)? {
            Found::There => Ok(Found::There),
            Found::Added => {
                self.table.commit(change);
                Ok(Found::Added)
            }
        }
    }

    /// Whether the table lets the session go on.
    pub fn is_allowed(&self) -> bool
        ensures { result ≡ (verdict_of self.now.table.rows self.now.session).allow }
    {
        self.table.verdict(&self.session).allow
    }
}
