ghost use Rattle.std.specs.Prelude.{◌≡◌, ◌∷◌, ℕ, List, [], IfOk, IfSome, OnErr, OnOk, is_some, false, length, option_copied};
ghost use Rattle.sig_inbox.specs.Pairs.{has_pair};
ghost use Rattle.sig_json.specs.Answers.{Answers};

use crate::{Heard, Hearing, Ready, TakeFault};
use sig_inbox::{Pair, Seen};
use sig_json::{Memory, Text};
use sig_sessions::{Row, Table, Verdict};
use sig_set::{Claims, LastHeader, PreparedTrust, Refusal, claims_of_next, judge_prepared};
use sig_subject::Subject;
use std::alloc::Global;
use std::marker::Model;

/// What a receiver keeps of its journal: which tokens it took, and the session table that they made. Contracts see the
/// pairs, the rows, and for how many more there is room. Beside these it keeps the header that was judged last.
pub struct Receiver {
    alloc: Global,
    seen: Seen,
    table: Table,
    last: LastHeader,
}

impl Drop for Receiver {
    fn drop(self) {
        let Receiver {
            alloc: _,
            seen,
            table,
            last,
        } = self;
        drop(seen);
        drop(table);
        drop(last);
    }
}

impl Model for Receiver {
    ghost use Rattle.sig_receiver.specs.Receiver.{Held};

    ghost Value = { Held };

    ghost view = { λ r. record { pairs = r.seen.pairs; rows = r.table.rows; rooms = record { pairs = r.seen.room; rows = r.table.room } } };
}

impl Receiver {
    ghost use Rattle.sig_receiver.specs.Receiver.{IsHearing, IsReady, Received, StandsFor, StandsOver, committed, committed_if, heard_at, is_accepted, nothing, received, received_of, taken};
    ghost use Rattle.sig_receiver.specs.Journal.{answer_to, journal_by, pair_of};
    ghost use Rattle.sig_receiver.specs.Taking.{text_taken};
    ghost use Rattle.sig_sessions.specs.Verdicts.{verdict_of};

    /// One that took nothing yet. It keeps the allocator.
    pub fn new(alloc: Global) -> Receiver
        ensures { received result ≡ nothing }
    {
        Receiver {
            alloc,
            seen: Seen::new(alloc),
            table: Table::new(alloc),
            last: LastHeader::none(),
        }
    }

    /// Judges a token, and makes ready what taking it comes to: for a journal in which it has to stand before it has its
    /// effect. All that is kept stays as it is; room for more may be kept. A token that is known already takes no memory
    /// beyond its judgement. Out of memory is its only error.
    pub fn prepare(
        &mut self,
        trust: &PreparedTrust,
        principal: Option<&Text>,
        named: Option<&Text>,
        text: &[u8],
    ) -> Result<Hearing, Memory>
        ensures same { received self.new ≡ received self.old }
        ensures heard { IfOk result (λ hearing. hearing.heard ≡ heard_at trust.now (option_copied principal.entry) (option_copied named.entry) (received self.old) text.now) }
        ensures change { IfOk result (λ hearing. is_some hearing.change ≡ is_accepted hearing.heard) }
        ensures ready { IfOk result (λ hearing. IfSome hearing.change (IsReady self.new)) }
        ensures makes { IfOk result (λ hearing. committed_if hearing.change (received self.old) ≡ received_of (received self.old) (journal_by hearing.heard [] text.now)) }
    {
        match judge_prepared(self.alloc, trust, &mut self.last, principal, named, text) {
            Ok(claims) => self.prepare_valid(claims),
            Err(Refusal::Coded { code, spot }) => Ok(Hearing {
                heard: Heard::NotTaken { code, spot },
                change: None,
            }),
            Err(Refusal::Memory) => Err(Memory),
        }
    }

    // The same of the claims of a valid token.
    fn prepare_valid(&mut self, claims: Claims) -> Result<Hearing, Memory>
        ensures same { received self.new ≡ received self.old }
        ensures told { IfOk result (λ hearing. IsHearing self.new (received self.old) claims hearing) }
    {
        let (known, claims) = self.knows(claims);
        if known {
            return Ok(Hearing {
                heard: Heard::Seen,
                change: None,
            });
        }
        let ready = self.make_ready(claims)?;
        Ok(Hearing {
            heard: Heard::Accepted,
            change: Some(ready),
        })
    }

    // Whether the pair of the claims is there. It is moved out of them and back, so that no memory is taken.
    fn knows(&self, claims: Claims) -> (bool, Claims)
        ensures known { result.0 ≡ has_pair (pair_of claims) self.now.pairs }
        ensures same { result.1 ≡ claims }
    {
        let Claims {
            iss,
            jti,
            iat,
            aud,
            subject,
            events,
        } = claims;
        let pair = Pair { iss, jti };
        let known = self.seen.has(&pair);
        let Pair { iss, jti } = pair;
        let claims = Claims {
            iss,
            jti,
            iat,
            aud,
            subject,
            events,
        };
        (known, claims)
    }

    // The pair of the claims; the rest of them ends here.
    fn into_pair(claims: Claims) -> Pair
        ensures { result ≡ pair_of claims }
    {
        let Claims { iss, jti, .. } = claims;
        Pair { iss, jti }
    }

    // Room for the pair of the claims, which is new, and the change that they make of the table.
    fn make_ready(&mut self, claims: Claims) -> Result<Ready, Memory>
        requires { has_pair (pair_of claims) self.old.pairs ≡ false }
        ensures same { received self.new ≡ received self.old }
        ensures ready { IfOk result (IsReady self.new) }
        ensures makes { IfOk result (λ ready. committed ready (received self.old) ≡ taken (received self.old) claims) }
    {
        self.seen.make_room()?;
        let change = self.table.prepare(&claims)?;
        let pair = Self::into_pair(claims);
        Ok(Ready { pair, change })
    }

    /// Takes in what the last `prepare` made ready. It takes no memory.
    pub fn commit(&mut self, ready: Ready)
        requires { IsReady self.old ready }
        ensures { received self.new ≡ committed ready (received self.old) }
    {
        let Ready { pair, change } = ready;
        self.seen.put(pair);
        self.table.commit(change);
    }

    /// Takes a text of the journal that is loaded, without a judgement of its key. A text whose pair is there changes
    /// nothing. `Bad` names the spot at which the text is no token; after any fault what is kept is as before.
    pub fn take_up(&mut self, text: &[u8]) -> Result<(), TakeFault>
        ensures fault { Answers TakeFault.Memory result (text_taken text.now) }
        ensures taken { OnOk result (received self.new ≡ received_of (received self.old) (text.now ∷ [])) }
        ensures err { OnErr result (received self.new ≡ received self.old) }
    {
        let claims = match claims_of_next(self.alloc, &mut self.last, text) {
            Ok(claims) => claims,
            Err(fault) => return Err(TakeFault::of_claims(fault)),
        };
        let (known, claims) = self.knows(claims);
        if known {
            return Ok(());
        }
        let ready = self.make_ready(claims)?;
        self.commit(ready);
        Ok(())
    }

    /// Judges a token and takes it where it is valid and new. What it answers and keeps is by any journal that it stands
    /// for, over whatever was kept before that journal: one that repeats a token, or goes on from a loaded one, is no
    /// less a journal. After out of memory what is kept is as before.
    pub fn hear(
        &mut self,
        trust: &PreparedTrust,
        principal: Option<&Text>,
        named: Option<&Text>,
        text: &[u8],
    ) -> Result<Heard, Memory>
        ensures answer { IfOk result (λ heard. (journal : List (List ℕ)) → StandsFor self.old journal
            → heard ≡ answer_to trust.now [] (option_copied principal.entry) (option_copied named.entry) journal text.now) }
        ensures kept { IfOk result (λ heard. (journal : List (List ℕ)) → StandsFor self.old journal
            → StandsFor self.new (journal_by heard journal text.now)) }

        // The same over what was kept before the journal, whatever that is.
        ensures answer_over { IfOk result (λ heard. (base : Received) (journal : List (List ℕ)) → StandsOver base self.old journal
            → heard ≡ answer_to trust.now base.pairs (option_copied principal.entry) (option_copied named.entry) journal text.now) }
        ensures kept_over { IfOk result (λ heard. (base : Received) (journal : List (List ℕ)) → StandsOver base self.old journal
            → StandsOver base self.new (journal_by heard journal text.now)) }
        ensures err { OnErr result (received self.new ≡ received self.old) }
    {
        let Hearing { heard, change } = self.prepare(trust, principal, named, text)?;
        self.commit_some(change);
        Ok(heard)
    }

    // Takes in what was made ready, where there is something.
    fn commit_some(&mut self, change: Option<Ready>)
        requires { IfSome change (IsReady self.old) }
        ensures { received self.new ≡ committed_if change (received self.old) }
    {
        if let Some(ready) = change {
            self.commit(ready);
        }
    }

    /// The rows of the session table, in order of first mention.
    pub fn rows(&self) -> &[Row]
        ensures { result.now ≡ self.now.rows }
    {
        self.table.as_slice()
    }

    /// What the session table says of a subject. It takes no memory.
    pub fn verdict(&self, subject: &Subject) -> Verdict
        ensures { result ≡ verdict_of self.now.rows subject.now }
    {
        self.table.verdict(subject)
    }

    /// The pairs of the tokens that it took, in order.
    pub fn seen(&self) -> &Seen
        ensures { result.now.pairs ≡ self.now.pairs }
    {
        &self.seen
    }

    /// The session table.
    pub fn table(&self) -> &Table
        ensures { result.now.rows ≡ self.now.rows }
    {
        &self.table
    }

    /// How many tokens it took.
    pub fn tokens(&self) -> u64
        ensures { result ≡ length self.now.pairs }
    {
        self.seen.len()
    }
}
