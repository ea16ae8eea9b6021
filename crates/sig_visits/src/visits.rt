//! A receiver, and the answers to lines.

use crate::store::{Files, empty_store, files_of, node_over};
use crate::telling::{brought, visited};
use sig_fetch::fetch;
use sig_json::{Bytes, Items, Memory};
use sig_lines::{Answering, bare, cut_at_space, decoded, number_in, said};
use sig_link::serve_link;
use sig_memory_links::{MemLink, MemSide};
use sig_outside::MemDisk;
use sig_rxend::RxEnd;
use sig_rxnode::{Peer, RxNode, RxRules};
use sig_rxsettings::{RxSettings, rx_settings};
use sig_settings::SettingsFault;
use std::alloc::Global;
use std::sync::Wait;

/// A receiver in memory, by the settings of the last line that has some.
#[derive(Drop)]
pub struct Visits<'a, W: Wait> {
    alloc: Global,
    wait: &'a W,
    rules: Option<RxRules>,
    files: Option<Files>,
}

impl<'a, W: Wait> Visits<'a, W> {
    /// No receiver yet.
    pub fn new(alloc: Global, wait: &'a W) -> Visits<'a, W> {
        Visits {
            alloc,
            wait,
            rules: None,
            files: None,
        }
    }

    // A receiver by the settings that the rest spells.
    fn settled(&mut self, rest: &[u8]) -> Result<Option<Bytes>, Memory> {
        match rx_settings(self.alloc, rest) {
            Ok(said) => {
                let RxSettings { rules, listen } = said;
                drop(listen);
                self.files = Some(empty_store(self.alloc)?);
                self.rules = Some(rules);
                Ok(Some(bare(self.alloc, "ok")?))
            }
            Err(SettingsFault::Refused(member)) => {
                let member = said(self.alloc, "refused", member.as_str().as_bytes())?;
                Ok(Some(member))
            }
            Err(SettingsFault::Memory) => Err(Memory),
        }
    }

    // Serves a link that gives the bytes of the rest.
    fn linked(&mut self, rest: &[u8]) -> Result<Option<Bytes>, Memory> {
        let Some(bytes) = decoded(self.alloc, rest)? else {
            return Ok(None);
        };
        let (Some(files), Some(rules)) = (self.files.take(), &self.rules) else {
            return Ok(None);
        };
        let mut link = MemLink::new(self.alloc, bytes, Items::of(Vec::new(self.alloc)));
        let mut node = node_over(self.alloc, files, rules)?;
        let mut side = side_over(self.alloc, Items::of(Vec::new(self.alloc)));
        let log = serve_link::<RxEnd<RxNode<MemDisk>>, W, MemLink, MemSide>(
            self.alloc, self.wait, &mut node, rules, 1, &mut link, &mut side,
        );
        self.files = Some(files_of(node));
        Ok(Some(visited(self.alloc, log.end, &link)?))
    }

    // Fetches over the links of the rest.
    fn fetched(&mut self, rest: &[u8]) -> Result<Option<Bytes>, Memory> {
        let (word, rest) = cut_at_space(rest).unwrap_or((rest, b""));
        let (Some(rounds), Some(links)) = (number_in(word), links_in(self.alloc, rest)?) else {
            return Ok(None);
        };
        let (Some(files), Some(rules)) = (self.files.take(), &self.rules) else {
            return Ok(None);
        };
        let Some(peer) = &rules.peer else {
            return Ok(None);
        };
        let (files, answer) = fetched_by(self.alloc, files, rules, peer, links, rounds)?;
        self.files = Some(files);
        Ok(Some(answer))
    }
}

impl<'a, W: Wait> Answering for Visits<'a, W> {
    fn told(&mut self, word: &str, rest: &[u8]) -> Result<Option<Bytes>, Memory> {
        match word {
            "settings" => self.settled(rest),
            "link" => self.linked(rest),
            "fetch" => self.fetched(rest),
            _ => Ok(None),
        }
    }
}

fn fetched_by(
    alloc: Global,
    files: Files,
    rules: &RxRules,
    peer: &Peer,
    links: Items<MemLink>,
    rounds: u64,
) -> Result<(Files, Bytes), Memory> {
    let mut side = side_over(alloc, links);
    let mut node = node_over(alloc, files, rules)?;
    let fetched = fetch(alloc, &mut node, &mut side, peer, rounds);
    let files = files_of(node);
    let answer = brought(alloc, &fetched, side.back())?;
    Ok((files, answer))
}

// A side whose dials give these links, and none fails.
fn side_over(alloc: Global, links: Items<MemLink>) -> MemSide {
    let nothing = Items::of(Vec::new(alloc));
    MemSide::new(alloc, links, nothing, Items::of(Vec::new(alloc)))
}

// The links that give the bytes of these words, one space between them.
fn links_in(alloc: Global, words: &[u8]) -> Result<Option<Items<MemLink>>, Memory> {
    let mut links = Vec::new(alloc);
    for word in words.split(|byte| *byte == b' ') {
        match decoded(alloc, word)? {
            Some(bytes) => links.push(MemLink::new(alloc, bytes, Items::of(Vec::new(alloc))))?,
            None => return Ok(None),
        }
    }
    Ok(Some(Items::of(links)))
}
