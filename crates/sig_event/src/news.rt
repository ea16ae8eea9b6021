ghost use Rattle.std.specs.Prelude.{◌≡◌, IfOk};

use crate::Event;
use sig_json::{Copied, Memory, Same};
use sig_subject::Subject;
use std::alloc::Global;

/// What a publication says and a token tells: an event about a subject (RFC 8417, section 1.2).
#[derive(Drop)]
pub struct News {
    /// Whom it is about (RFC 9493).
    pub subject: Subject,
    /// What happened.
    pub event: Event,
}

impl News {
    /// Equal news.
    pub fn copy(&self, alloc: Global) -> Result<News, Memory>
        ensures { IfOk result (λ n. n ≡ self.now) }
    {
        let subject = self.subject.copy(alloc)?;
        let event = self.event.copy(alloc)?;
        Ok(News { subject, event })
    }
}

impl Copied for News {
    fn copied(&self, alloc: Global) -> Result<News, Memory> {
        self.copy(alloc)
    }
}

impl Same for News {
    fn same(&self, other: &News) -> bool {
        self.subject.same(&other.subject) && self.event.same(&other.event)
    }
}
