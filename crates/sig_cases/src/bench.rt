//! What earlier lines leave for later ones, and the answers to lines.

use crate::subjects::Relation;
use crate::word::Word;
use crate::{base, bodies, messages, records, replies, routes, streams, subjects, table, tokens};
use sig_json::{Bytes, Memory};
use sig_lines::{Answering, bare};
use sig_sessions::Table;
use sig_set::Trust;
use std::alloc::Global;

/// Whom tokens are trusted of, and the session table.
#[derive(Drop)]
pub struct Bench {
    alloc: Global,
    trust: Trust,
    table: Table,
}

impl Bench {
    /// One that trusts nobody and has no rows.
    pub fn new(alloc: Global) -> Result<Bench, Memory> {
        Ok(Bench {
            alloc,
            trust: tokens::nobody(alloc)?,
            table: Table::new(alloc),
        })
    }

    // None where the rest isn't of the word's form.
    fn asked(&mut self, word: Word, rest: &[u8]) -> Result<Option<Bytes>, Memory> {
        let alloc = self.alloc;
        match word {
            Word::Json => Ok(Some(base::json(alloc, rest)?)),
            Word::Mac => base::mac(alloc, rest),
            Word::Key => base::key(alloc, rest),
            Word::Split => Ok(Some(base::split(alloc, rest)?)),
            Word::Subject => Ok(Some(subjects::subject(alloc, rest)?)),
            Word::Identical => subjects::related(alloc, Relation::Identical, rest),
            Word::Matches => subjects::related(alloc, Relation::Matches, rest),
            Word::Covers => subjects::related(alloc, Relation::Covers, rest),
            Word::Event => subjects::event(alloc, rest),
            Word::Trust => self.trusted(rest),
            Word::Judge => tokens::judge(alloc, &self.trust, rest),
            Word::Claims => Ok(Some(tokens::claims(alloc, rest)?)),
            Word::Take => table::take(alloc, &mut self.table, rest),
            Word::Row => table::row(alloc, &self.table, rest),
            Word::Verdict => table::verdict(alloc, &self.table, rest),
            Word::Clear => self.cleared(rest),
            Word::Want => streams::want(alloc, rest),
            Word::Publish => streams::publish(alloc, rest),
            Word::Conf => streams::conf(alloc, rest),
            Word::Delivers => streams::delivers(alloc, rest),
            Word::Fits => streams::fitting(alloc, rest),
            Word::Request => messages::request(alloc, rest),
            Word::Response => messages::response(alloc, rest),
            Word::Record => records::record(alloc, rest),
            Word::TokenRecord => records::token_record(alloc, rest),
            Word::Ask => Ok(Some(bodies::ask(alloc, rest)?)),
            Word::Sets => Ok(Some(bodies::sets(alloc, rest)?)),
            Word::Outcome => bodies::outcome(alloc, rest),
            Word::Route => routes::route(alloc, rest),
            Word::Reply => replies::reply(alloc, rest),
        }
    }

    // Sets the trust where the rest spells one.
    fn trusted(&mut self, rest: &[u8]) -> Result<Option<Bytes>, Memory> {
        let Some(trust) = tokens::trust(self.alloc, rest)? else {
            return Ok(None);
        };
        let answer = bare(self.alloc, "ok")?;
        self.trust = trust;
        Ok(Some(answer))
    }

    // Empties the table where nothing follows the word.
    fn cleared(&mut self, rest: &[u8]) -> Result<Option<Bytes>, Memory> {
        if !rest.is_empty() {
            return Ok(None);
        }
        let answer = bare(self.alloc, "ok")?;
        self.table = Table::new(self.alloc);
        Ok(Some(answer))
    }
}

impl Answering for Bench {
    fn told(&mut self, word: &str, rest: &[u8]) -> Result<Option<Bytes>, Memory> {
        match Word::named(word) {
            Some(word) => self.asked(word, rest),
            None => Ok(None),
        }
    }
}
