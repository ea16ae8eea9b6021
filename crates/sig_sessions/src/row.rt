ghost use Rattle.std.specs.Prelude.{◌≡◌, IfOk};
ghost use Rattle.sig_sessions.specs.Changes.{updated};
ghost use Rattle.sig_sessions.specs.Table as spec;

use crate::state::State;
use crate::update::Update;
use crate::{Account, Device, Opt, Session};
use sig_json::{Copied, Memory, Same, Text, copy_optional};
use sig_subject::Subject;
use std::alloc::Global;

/// A row of the session table: a subject, and what is known of it.
pub struct Row {
    /// Whom it is about.
    pub subject: Subject,
    /// Its session.
    pub session: Session,
    /// Its account.
    pub account: Account,
    /// Its device.
    pub device: Device,
    /// Whether a credential has to be reset.
    pub reset: bool,
    /// Whether claims that were read of it earlier may be old.
    pub stale: bool,
    /// Whether it takes part.
    pub opt: Opt,
    /// Its assurance level, where one was told (CAEP 1.0, section 3.4).
    pub level: Option<Text>,
}

impl Drop for Row {
    fn drop(self) {
        let Row {
            subject,
            session: _,
            account: _,
            device: _,
            reset: _,
            stale: _,
            opt: _,
            level,
        } = self;
        drop(subject);
        drop(level);
    }
}

impl Row {
    /// An equal row. Out of memory is its only error.
    pub fn copy(&self, alloc: Global) -> Result<Row, Memory>
        ensures { IfOk result (λ r. r ≡ self.now) }
    {
        Ok(Row {
            subject: self.subject.copy(alloc)?,
            session: self.session,
            account: self.account,
            device: self.device,
            reset: self.reset,
            stale: self.stale,
            opt: self.opt,
            level: copy_optional(alloc, &self.level)?,
        })
    }

    // A row of which nothing is known.
    pub(crate) fn unseen(subject: Subject) -> Row
        ensures { result ≡ spec.unseen subject }
    {
        Row {
            subject,
            session: Session::Unseen,
            account: Account::Unseen,
            device: Device::Unseen,
            reset: false,
            stale: false,
            opt: Opt::Unseen,
            level: None,
        }
    }

    // What is known but the subject and the level.
    pub(crate) fn state(&self) -> State
        ensures { result ≡ spec.state_of self.now }
    {
        State {
            session: self.session,
            account: self.account,
            device: self.device,
            reset: self.reset,
            stale: self.stale,
            opt: self.opt,
        }
    }

    // Takes in a new state, and a new level where there is one.
    pub(crate) fn change(&mut self, update: Update)
        ensures { self.new ≡ updated update self.old }
    {
        let Update {
            place: _,
            state,
            level,
        } = update;
        self.session = state.session;
        self.account = state.account;
        self.device = state.device;
        self.reset = state.reset;
        self.stale = state.stale;
        self.opt = state.opt;
        if level.is_some() {
            self.level = level;
        }
    }
}

impl Copied for Row {
    fn copied(&self, alloc: Global) -> Result<Row, Memory> {
        self.copy(alloc)
    }
}

impl Same for Row {
    fn same(&self, other: &Row) -> bool {
        self.subject.same(&other.subject)
            && self.session.same(&other.session)
            && self.account.same(&other.account)
            && self.device.same(&other.device)
            && self.reset == other.reset
            && self.stale == other.stale
            && self.opt.same(&other.opt)
            && self.level.same(&other.level)
    }
}

/// Equal rows in the same order.
pub(crate) fn copy_rows(alloc: Global, rows: &[Row]) -> Result<Vec<Row>, Memory>
    ensures { IfOk result (λ copies. copies.items ≡ rows.now) }
{
    let mut copies = Vec::new(alloc);
    for row in rows {
        copies.push(row.copy(alloc)?)?;
    }
    Ok(copies)
}
