ghost use Rattle.std.specs.Prelude.{◌≡◌, [], None, Some, is_some, length, true};

use indexmap::IndexSet;
use sig_accounts::{Addressed, KeptRefusal, KeptToken, PublishId, SharedName, ToldStreams};
use sig_json::{Items, Text};
use sig_terms::Fact;
use std::alloc::Global;
use std::collections::VecDeque;
use std::marker::Model;

/// What is kept of a fact beside itself, made ready before it is taken in. What a fact needs none of is empty.
#[derive(Drop)]
pub struct Spare {
    client: Text,
    name: Option<SharedName>,
    id: Option<PublishId>,
    issued: Items<KeptToken>,
    told: ToldStreams,
    numbers: IndexSet<u64>,
    reason: Option<Text>,
    reported: VecDeque<KeptRefusal>,
}

impl Model for Spare {
    ghost use Rattle.sig_ledger.specs.Room as room;

    ghost Value = { room.Spare };

    ghost view = { λ s. record {
      client = s.client;
      name = s.name;
      id = s.id;
      issued = s.issued;
      told = s.told;
      numbers = s.numbers.keys;
      reason = s.reason;
      reported = s.reported.items;
    } };
}

impl Spare {
    /// For a fact of which nothing is kept beside itself. It takes no memory.
    pub fn none(alloc: Global) -> Spare
        ensures { result ≡ record { client = []; name = None; id = None; issued = []; told = []; numbers = []; reason = None; reported = [] } }
    {
        Spare {
            client: Text::from_string(String::new(alloc)),
            name: None,
            id: None,
            issued: Items::of(Vec::new(alloc)),
            told: ToldStreams::none(alloc),
            numbers: IndexSet::new(alloc),
            reason: None,
            reported: VecDeque::new(alloc),
        }
    }

    /// For a stream that is made: its client's name, for its count, and its own, for its tokens to share.
    pub fn for_stream(alloc: Global, client: Text, name: SharedName) -> Spare
        ensures { result ≡ record { client = client; name = Some name; id = None; issued = []; told = []; numbers = []; reason = None; reported = [] } }
    {
        let mut spare = Spare::none(alloc);
        spare.client = client;
        spare.name = Some(name);
        spare
    }

    /// For a publication: its id, as it is kept, and the tokens that it makes.
    pub fn for_tokens(alloc: Global, id: PublishId, issued: Items<KeptToken>) -> Spare
        ensures { result ≡ record { client = []; name = None; id = Some id; issued = issued; told = []; numbers = []; reason = None; reported = [] } }
    {
        let mut spare = Spare::none(alloc);
        spare.id = Some(id);
        spare.issued = issued;
        spare
    }

    /// For tokens that are settled: their numbers, and what is kept of those that were reported.
    pub fn for_items(
        alloc: Global,
        numbers: IndexSet<u64>,
        reported: VecDeque<KeptRefusal>,
    ) -> Spare
        ensures { result ≡ record { client = []; name = None; id = None; issued = []; told = []; numbers = numbers.keys; reason = None; reported = reported.items } }
    {
        let mut spare = Spare::none(alloc);
        spare.numbers = numbers;
        spare.reported = reported;
        spare
    }

    /// For a status: its reason, for the token that tells it.
    pub fn for_reason(alloc: Global, reason: Option<Text>) -> Spare
        ensures { result ≡ record { client = []; name = None; id = None; issued = []; told = []; numbers = []; reason = reason; reported = [] } }
    {
        let mut spare = Spare::none(alloc);
        spare.reason = reason;
        spare
    }

    /// The client's name, and that of the stream.
    pub(crate) fn into_names(self) -> (Text, SharedName)
        requires { is_some self.name ≡ true }
        ensures client { result.0 ≡ self.client }
        ensures name { Some result.1 ≡ self.name }
    {
        (self.client, self.name.unwrap())
    }

    /// The id of a publication, the tokens that it makes, and the streams on which it is due.
    pub(crate) fn into_tokens(self) -> (PublishId, Items<KeptToken>, ToldStreams)
        requires { is_some self.id ≡ true }
        ensures id { Some result.0 ≡ self.id }
        ensures issued { result.1 ≡ self.issued }
        ensures told { result.2 ≡ self.told }
    {
        (self.id.unwrap(), self.issued, self.told)
    }

    /// How many reported tokens are kept.
    pub(crate) fn reported_count(&self) -> usize
        ensures { result ≡ length self.now.reported }
    {
        self.reported.len()
    }

    /// The numbers of tokens that are settled, and what is kept of those that were reported.
    pub(crate) fn into_items(self) -> (IndexSet<u64>, VecDeque<KeptRefusal>)
        ensures numbers { result.0.keys ≡ self.numbers }
        ensures reported { result.1.items ≡ self.reported }
    {
        (self.numbers, self.reported)
    }

    /// The reason of a status.
    pub(crate) fn into_reason(self) -> Option<Text>
        ensures { result ≡ self.reason }
    {
        self.reason
    }
}

/// A fact that is ready to be taken in without memory.
#[derive(Drop)]
pub struct Prepared {
    fact: Fact,
    spare: Spare,
}

impl Model for Prepared {
    ghost use Rattle.sig_ledger.specs.Room.{Ready};

    ghost Value = { Ready };

    ghost view = { λ p. record { fact = p.fact; spare = p.spare } };
}

impl Prepared {
    ghost use Rattle.sig_ledger.specs.Room.{with_told};

    /// A fact and the streams that it tells, with what else is kept beside it.
    pub fn of(addressed: Addressed, spare: Spare) -> Prepared
        ensures { result ≡ record { fact = addressed.fact; spare = with_told addressed.told spare } }
    {
        let (fact, told) = addressed.into_parts();
        let mut spare = spare;
        spare.told = told;
        Prepared { fact, spare }
    }

    /// The fact.
    pub fn fact(&self) -> &Fact
        ensures { result.now ≡ self.now.fact }
    {
        &self.fact
    }

    pub(crate) fn into_parts(self) -> (Fact, Spare)
        ensures fact { result.0 ≡ self.fact }
        ensures spare { result.1 ≡ self.spare }
    {
        (self.fact, self.spare)
    }
}
