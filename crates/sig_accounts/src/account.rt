//! A stream as it is held in memory.

ghost use Rattle.std.specs.Prelude.{◌≡◌, ◌↔◌, ◌+◌, ◌<◌, ◌≤◌, ◌^◌, ◌==◌, All, IfOk, IsTrue, OnOk, is_some, nat_eq, true};
ghost use Rattle.std.specs.List.{list_any};
ghost use Rattle.indexmap.specs.IndexSet.{contains};
ghost use Rattle.sig_subject.specs.Matching.{is_identical};
ghost use Rattle.sig_terms.specs.Fitting.{fits};
ghost use Rattle.sig_history.specs.Facts as facts;
ghost use Rattle.sig_history.specs.Streams as streams;
ghost use Rattle.sig_accounts.specs.Debts.{numbered};
ghost use Rattle.sig_accounts.specs.Listening.{hears_all};
ghost use Rattle.sig_accounts.specs.declared.debt.Debt.{Debt};

use crate::debt::{Debt, Notice, Said};
use crate::debts::Debts;
use crate::delivering::delivers_event;
use crate::names::client_in;
use crate::shared_name::SharedName;
use crate::subjects::Subjects;
use indexmap::IndexSet;
use sig_event::{News, Status};
use sig_json::{Items, Memory, Same, Text, copy_optional};
use sig_subject::Subject;
use sig_terms::{Defaults, Delivery, Fact, StreamConf};
use std::alloc::Global;
use std::marker::Model;

/// A stream that stands, with the tokens that it owes. Contracts see it as its stream, what it owes in small, and the numbers
/// of further tokens and of further subjects for which there is room.
pub struct Account {
    number: u64,
    conf: StreamConf,
    // The name that is in the configuration, for its tokens to share.
    name: SharedName,
    status: Status,
    reason: Option<Text>,
    listed: Subjects,
    asked: Option<u64>,
    made: u64,
    owed: Debts,
}

impl Drop for Account {
    fn drop(self) {
        let Account {
            number: _,
            conf,
            name,
            status: _,
            reason,
            listed,
            asked: _,
            made: _,
            owed,
        } = self;
        drop(conf);
        drop(name);
        drop(reason);
        drop(listed);
        drop(owed);
    }
}

impl Model for Account {
    ghost use Rattle.std.specs.Prelude.{◌≡◌};
    ghost use Rattle.sig_history.specs.Streams.{client_in};
    ghost use Rattle.sig_accounts.specs.Owings.{Balance};
    ghost use Rattle.sig_accounts.specs.Debts.{AreNumbered};

    ghost Value = { Balance };

    ghost view = { λ a. record {
      owing = record {
        stream = record {
          client = client_in a.conf.stream;
          number = a.number;
          conf = a.conf;
          status = a.status;
          reason = a.reason;
          listed = a.listed.listed;
          asked = a.asked;
          made = a.made;
        };
        owed = a.owed.debts;
      };
      room = a.owed.room;
      subjects = a.listed.room;
    } };

    ghost invariant = { λ a. (a.name ≡ a.conf.stream) × AreNumbered a.made a.owed.debts };
}

impl Account {
    ghost use Rattle.sig_accounts.specs.Owings.{Balance, opened_balance, owing_asked, owing_noted, owing_set, owing_settled, owing_told, owing_with, subjects_in};
    ghost use Rattle.sig_accounts.specs.Owings.{HasRoomFor};

    /// A new stream, with its name to be shared: it is enabled, has nobody on its list, and no token was made for it. It takes
    /// no memory.
    pub fn open(alloc: Global, number: u64, conf: StreamConf, name: SharedName) -> Account
        requires { name ≡ conf.stream }
        ensures { result ≡ opened_balance (facts.new_stream (streams.client_in conf.stream) number conf) }
    {
        Account {
            number,
            conf,
            name,
            status: Status::Enabled,
            reason: None,
            listed: Subjects::new(alloc),
            asked: None,
            made: 0,
            owed: Debts::new(alloc),
        }
    }

    /// An equal stream that owes the same.
    pub fn copy(&self, alloc: Global) -> Result<Account, Memory>
        ensures { IfOk result (λ a. a.owing ≡ self.now.owing) }
    {
        let name = self.name.share()?;
        let reason = copy_optional(alloc, &self.reason)?;
        let listed = self.listed.copy(alloc)?;
        let owed = self.owed.copy(alloc)?;
        Ok(Account {
            number: self.number,
            conf: self.conf.copy(alloc)?,
            name,
            status: self.status,
            reason,
            listed,
            asked: self.asked,
            made: self.made,
            owed,
        })
    }

    /// Whether both are one stream, whatever they owe.
    pub fn same_stream(&self, other: &Account) -> bool
        ensures { IsTrue result ↔ (self.now.owing.stream ≡ other.now.owing.stream) }
    {
        self.number == other.number
            && self.conf.same(&other.conf)
            && self.status.same(&other.status)
            && self.reason.same(&other.reason)
            && self.listed.lists_same(&other.listed)
            && self.asked.same(&other.asked)
            && self.made == other.made
    }

    /// Its configuration.
    pub fn conf(&self) -> &StreamConf
        ensures { result.now ≡ self.now.owing.stream.conf }
    {
        &self.conf
    }

    /// Its name, for its tokens to share.
    pub fn name(&self) -> &SharedName
        ensures { result.now ≡ self.now.owing.stream.conf.stream }
    {
        &self.name
    }

    /// Its client's name: what stands before the first hyphen of its own.
    pub fn client(&self) -> &str
        ensures { result.now ≡ self.now.owing.stream.client }
    {
        client_in(self.conf.stream.as_str())
    }

    /// Its status (Shared Signals Framework 1.0, section 8.1.2).
    pub fn status(&self) -> Status
        ensures { result ≡ self.now.owing.stream.status }
    {
        self.status
    }

    /// Why its status was set.
    pub fn reason(&self) -> &Option<Text>
        ensures { result.now ≡ self.now.owing.stream.reason }
    {
        &self.reason
    }

    /// When a verification was last asked for, in seconds since 1970.
    pub fn asked(&self) -> Option<u64>
        ensures { result ≡ self.now.owing.stream.asked }
    {
        self.asked
    }

    /// How many tokens were made for it.
    pub fn made(&self) -> u64
        ensures { result ≡ self.now.owing.stream.made }
    {
        self.made
    }

    /// What it owes, in order of number.
    pub fn owed(&self) -> &[Debt]
        ensures { result.now ≡ self.now.owing.owed }
    {
        self.owed.as_slice()
    }

    /// What it owes of numbers from one to another, in order of number. It is looked for by halves.
    pub fn owed_between(&self, least: u64, most: u64) -> &[Debt]
        ensures between { result.now ≡ numbered least most self.now.owing.owed }
        ensures small { All (λ (d : Debt). d.number < 2 ^ 64) self.now.owing.owed }
    {
        let _made = self.made;
        self.owed.numbered(least, most)
    }

    /// Whether it owes a token of this number. It is looked for by halves.
    pub fn owes(&self, number: u64) -> bool
        ensures { result ≡ list_any (λ (d : Debt). d.number == number) self.now.owing.owed }
    {
        !self.owed.numbered(number, number).is_empty()
    }

    /// The subjects on its list.
    pub fn listed(&self) -> &Subjects
        ensures { result.now.listed ≡ self.now.owing.stream.listed }
    {
        &self.listed
    }

    /// Whether its default subjects are all.
    pub fn hears_all(&self) -> bool
        ensures { result ≡ hears_all self.now.owing.stream.conf.defaults }
    {
        match self.conf.defaults {
            Defaults::All => true,
            Defaults::None => false,
        }
    }

    /// Whether it has this name.
    pub fn is_named(&self, name: &str) -> bool
        ensures { result ≡ streams.is_named name.now self.now.owing.stream }
    {
        self.conf.stream.as_str() == name
    }

    /// Whether it stands before another one: by its client's name, and then by its number.
    pub fn is_before(&self, other: &Account) -> bool
        ensures { result ≡ streams.is_before self.now.owing.stream other.now.owing.stream }
    {
        let client = self.client();
        let other_client = other.client();
        client < other_client || (client == other_client && self.number < other.number)
    }

    /// Whether news are due on it: it isn't disabled, and has the event and the subject (Shared Signals Framework 1.0,
    /// sections 7, 8.1.1 and 8.1.2).
    pub fn is_due(&self, news: &News) -> bool
        ensures { result ≡ streams.is_due news.now self.now.owing.stream }
    {
        !is_disabled(self.status)
            && delivers_event(&self.conf, &news.event)
            && self.fits(&news.subject)
    }

    // Whether a subject is one of its own, by its default subjects and its list.
    fn fits(&self, subject: &Subject) -> bool
        ensures { result ≡ fits self.now.owing.stream.conf.defaults self.now.owing.stream.listed subject.now }
    {
        match self.conf.defaults {
            Defaults::All => !self.listed.has(subject),
            Defaults::None => self.listed.has_matching(subject),
        }
    }

    /// Whether a fact tells it something, by one more token.
    pub fn is_told(&self, fact: &Fact) -> bool
        ensures { result ≡ facts.is_told fact.now self.now.owing.stream }
    {
        match fact {
            Fact::StatusSet {
                stream,
                operator,
                ..
            } => *operator && self.is_named(stream.as_str()),
            Fact::Published { news, .. } => self.is_due(news),
            Fact::Asked { stream, .. } => self.is_named(stream.as_str()),
            _ => false,
        }
    }

    /// Whether a subject that is identical to this one is on its list.
    pub fn is_listed(&self, subject: &Subject) -> bool
        ensures { result ≡ list_any (is_identical subject.now) self.now.owing.stream.listed }
    {
        self.listed.has(subject)
    }

    /// Room for one more token.
    pub fn reserve_token(&mut self) -> Result<(), Memory>
        ensures same { self.new.owing ≡ self.old.owing }
        ensures ok { OnOk result (0 < self.new.room) }
    {
        self.owed.reserve()
    }

    /// Room for one more subject on its list, where it has this name.
    pub fn reserve_subject(&mut self, name: &str) -> Result<(), Memory>
        ensures same { self.new.owing ≡ self.old.owing }
        ensures ok { OnOk result (HasRoomFor (streams.is_named name.now) subjects_in self.new) }
    {
        if self.is_named(name) {
            self.listed.reserve()?;
        }
        Ok(())
    }

    /// Makes a token. It takes no memory.
    pub fn tell(&mut self, time: u64, said: Said)
        requires room { 0 < self.old.room }
        requires number { self.old.owing.stream.made + 1 < 2 ^ 64 }
        ensures { self.new.owing ≡ owing_told time said self.old.owing }
    {
        self.made += 1;
        let number = self.made;
        self.owed.push(Debt { number, time, said });
    }

    /// Sets what a receiver may set of its configuration. It takes no memory.
    pub fn configure(
        &mut self,
        requested: Option<Items<Text>>,
        delivery: Delivery,
        description: Option<Text>,
    )
        ensures { self.new.owing ≡ owing_with (streams.with_conf (facts.configured requested delivery description self.old.owing.stream.conf) self.old.owing.stream) self.old.owing }
    {
        self.conf.requested = requested;
        self.conf.delivery = delivery;
        self.conf.description = description;
    }

    // Sets its status, and why. Where that disables it, it owes nothing any more.
    fn set_status(&mut self, status: Status, reason: Option<Text>)
        ensures owing { self.new.owing ≡ owing_set status reason self.old.owing }
        ensures room { self.old.room ≤ self.new.room }
    {
        self.status = status;
        self.reason = reason;
        if is_disabled(status) {
            self.owed.clear();
        }
    }

    /// Sets its status, and why, and makes a token where there is a notice. It takes no memory.
    pub fn note_status(&mut self, status: Status, reason: Option<Text>, notice: Option<Notice>)
        requires room { is_some notice ≡ true → 0 < self.old.room }
        requires number { self.old.owing.stream.made + 1 < 2 ^ 64 }
        ensures { self.new.owing ≡ owing_noted notice (owing_set status reason self.old.owing) }
    {
        self.set_status(status, reason);
        if let Some(notice) = notice {
            self.tell(notice.time, notice.said);
        }
    }

    /// Puts a subject at the end of its list, unless an identical one is there. It takes no memory.
    pub fn list(&mut self, subject: Subject)
        requires { 0 < self.old.subjects }
        ensures { self.new.owing ≡ owing_with (streams.with_listed (streams.list_added subject self.old.owing.stream.listed) self.old.owing.stream) self.old.owing }
    {
        self.listed.add(subject);
    }

    /// Takes a subject off its list. It takes no memory.
    pub fn unlist(&mut self, subject: &Subject)
        ensures { self.new.owing ≡ owing_with (streams.with_listed (streams.list_removed subject.now self.old.owing.stream.listed) self.old.owing.stream) self.old.owing }
    {
        self.listed.remove(subject);
    }

    /// Takes off the tokens of these numbers. It takes no memory.
    pub fn settle(&mut self, numbers: &IndexSet<u64>)
        ensures { self.new.owing ≡ owing_settled (contains nat_eq numbers.now) self.old.owing }
    {
        self.owed.settle(numbers);
    }

    /// Notes when a verification was asked for, and makes its token. It takes no memory.
    pub fn verify(&mut self, state: Option<Text>, time: u64)
        requires room { 0 < self.old.room }
        requires number { self.old.owing.stream.made + 1 < 2 ^ 64 }
        ensures { self.new.owing ≡ owing_asked state time self.old.owing }
    {
        self.asked = Some(time);
        self.tell(time, Said::Verified { state });
    }
}

// Whether a stream of this status makes no tokens of what is published.
fn is_disabled(status: Status) -> bool
    ensures { result ≡ streams.is_disabled status }
{
    match status {
        Status::Enabled | Status::Paused => false,
        Status::Disabled => true,
    }
}
