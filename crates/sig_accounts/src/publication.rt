ghost use Rattle.std.specs.Prelude.{◌≡◌, IfOk, bytes_eq, option_map};
ghost use Rattle.std.specs.List.{slice_get};
ghost use Rattle.sig_history.specs.Streams as streams;

use crate::kept_token::{KeptToken, tokens_issued};
use crate::publish_id::PublishId;
use sig_event::News;
use sig_json::{Copied, Items, Memory, Same, copy_items};
use sig_terms::Issued;
use std::alloc::Global;
use std::marker::Model;

/// A publication, with the tokens that it made, which hold no text each. It is kept for good.
pub struct Publication {
    id: PublishId,
    news: News,
    issued: Items<KeptToken>,
}

impl Drop for Publication {
    fn drop(self) {
        let Publication { id, news, issued } = self;
        drop(id);
        drop(news);
        drop(issued);
    }
}

impl Model for Publication {
    ghost Value = { streams.Publication };

    ghost view = { λ p. record { id = p.id; news = p.news; issued = p.issued } };
}

impl Publication {
    /// A publication of these parts.
    pub fn of(id: PublishId, news: News, issued: Items<KeptToken>) -> Publication
        ensures { result ≡ record { id = id; news = news; issued = issued } }
    {
        Publication { id, news, issued }
    }

    /// Its own name.
    pub fn id(&self) -> &PublishId
        ensures { result.now ≡ self.now.id }
    {
        &self.id
    }

    /// Whether this is its own name. It takes no memory.
    pub fn is_named(&self, id: &str) -> bool
        ensures { result ≡ bytes_eq self.now.id id.now }
    {
        self.id.is(id)
    }

    /// What it says.
    pub fn news(&self) -> &News
        ensures { result.now ≡ self.now.news }
    {
        &self.news
    }

    /// The tokens that it made, each with a text of its own.
    pub fn issued(&self, alloc: Global) -> Result<Items<Issued>, Memory>
        ensures { IfOk result (λ items. items ≡ self.now.issued) }
    {
        tokens_issued(alloc, &self.issued)
    }
}

impl Copied for Publication {
    fn copied(&self, alloc: Global) -> Result<Publication, Memory> {
        let id = self.id.copied(alloc)?;
        let issued = copy_items(alloc, &self.issued)?;
        Ok(Publication {
            id,
            news: self.news.copy(alloc)?,
            issued,
        })
    }
}

impl Same for Publication {
    fn same(&self, other: &Publication) -> bool {
        self.id.same(&other.id) && self.news.same(&other.news) && self.issued.same(&other.issued)
    }
}

/// The publication at a place.
pub fn publication_at(published: &[Publication], place: usize) -> Option<&Publication>
    ensures { option_map (λ p. p.now) result ≡ slice_get published.now place }
{
    published.get(place)
}
