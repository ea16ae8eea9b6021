ghost use Rattle.std.specs.Prelude.{◌≡◌, ◌<◌, IfOk, IfSome, length, option_map};
ghost use Rattle.sig_accounts.specs.Reported.{id_in, refused_at};

use crate::publication::Publication;
use crate::shared_name::SharedName;
use sig_json::{Memory, Text, copy_optional};
use sig_terms::RefusedToken;
use std::alloc::Global;

/// A token that its receiver reported as faulty, in small: the name of its publication is looked up where it is read.
#[derive(Drop)]
pub struct KeptRefusal {
    /// The name of its stream, which all tokens of the stream share.
    pub stream: SharedName,
    /// Its number among the tokens of its stream.
    pub number: u64,
    /// The place of the publication that made it, among all that was published; none where none did.
    pub place: Option<usize>,
    /// Why, where the code is short enough to be kept.
    pub code: Option<Text>,
    /// When it was made, in seconds since 1970.
    pub time: u64,
}

impl KeptRefusal {
    /// An equal one.
    pub fn copy(&self, alloc: Global) -> Result<KeptRefusal, Memory>
        ensures { IfOk result (λ k. k ≡ self.now) }
    {
        let stream = self.stream.share()?;
        Ok(KeptRefusal {
            stream,
            number: self.number,
            place: self.place,
            code: copy_optional(alloc, &self.code)?,
            time: self.time,
        })
    }

    /// The token, with texts of its own.
    pub fn token(&self, alloc: Global, published: &[Publication]) -> Result<RefusedToken, Memory>
        ensures { IfOk result (λ t. t ≡ refused_at published.now self.now) }
    {
        let stream = self.stream.text().copy(alloc)?;
        let id = copy_id(alloc, published, self.place)?;
        Ok(RefusedToken {
            stream,
            number: self.number,
            id,
            code: copy_optional(alloc, &self.code)?,
            time: self.time,
        })
    }
}

// The name of the publication at a place, where there is one.
fn copy_id(
    alloc: Global,
    published: &[Publication],
    place: Option<usize>,
) -> Result<Option<Text>, Memory>
    ensures { IfOk result (λ id. id ≡ id_in published.now place) }
{
    let Some(place) = place else {
        return Ok(None);
    };
    match published.get(place) {
        None => Ok(None),
        Some(publication) => Ok(Some(publication.id().text(alloc)?)),
    }
}
