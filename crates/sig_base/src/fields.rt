//! The parts of a base, as fields.

ghost use Rattle.sig_fields.specs.Kinds as kinds;
ghost use Rattle.sig_base.specs.Parts as parts;

use crate::base::{BasePublication, BaseRefusals, BaseStream, BaseToken, ClientCount};
use crate::lists::LongList;
use sig_entry::{ConfField, NewsField, StatusField, SubjectField, ToldField};
use sig_fields::{Field, Maybe, NumberField, PartFault, Reading, TextField};
use sig_json::Memory;
use sig_json::limits::LAST_NUMBER;
use sig_terms::{Issued, RefusedToken};
use std::alloc::Global;

/// A time, in eight bytes, at most 2^62.
pub(crate) struct TimeField;

impl Field for TimeField {
    type Value = u64;

    ghost spelled = { kinds.number_bytes };

    ghost read = { parts.time };

    fn put(alloc: Global, value: &u64, out: &mut Vec<u8>) -> Result<(), Memory> {
        NumberField::put(alloc, value, out)
    }

    fn take(_alloc: Global, bytes: &mut Reading<'_>) -> Result<u64, PartFault> {
        bytes.take_up_to(LAST_NUMBER)
    }
}

/// A client: its name, and how many streams it ever made.
pub(crate) struct ClientField;

impl Field for ClientField {
    type Value = ClientCount;

    ghost spelled = { parts.client_bytes };

    ghost read = { parts.client };

    fn put(alloc: Global, value: &ClientCount, out: &mut Vec<u8>) -> Result<(), Memory> {
        TextField::put(alloc, &value.client, out)?;
        NumberField::put(alloc, &value.created, out)
    }

    fn take(alloc: Global, bytes: &mut Reading<'_>) -> Result<ClientCount, PartFault> {
        let client = TextField::take(alloc, bytes)?;
        let created = NumberField::take(alloc, bytes)?;
        Ok(ClientCount { client, created })
    }
}

/// A token that is owed: its number, when it was made, and what it tells.
pub(crate) struct TokenField;

impl Field for TokenField {
    type Value = BaseToken;

    ghost spelled = { parts.token_bytes };

    ghost read = { parts.token };

    fn put(alloc: Global, value: &BaseToken, out: &mut Vec<u8>) -> Result<(), Memory> {
        NumberField::put(alloc, &value.number, out)?;
        TimeField::put(alloc, &value.iat, out)?;
        ToldField::put(alloc, &value.news, out)
    }

    fn take(alloc: Global, bytes: &mut Reading<'_>) -> Result<BaseToken, PartFault> {
        let number = NumberField::take(alloc, bytes)?;
        let iat = TimeField::take(alloc, bytes)?;
        let news = ToldField::take(alloc, bytes)?;
        Ok(BaseToken { number, iat, news })
    }
}

/// A stream, field by field.
pub(crate) struct StreamField;

impl Field for StreamField {
    type Value = BaseStream;

    ghost spelled = { parts.stream_bytes };

    ghost read = { parts.stream };

    fn put(alloc: Global, value: &BaseStream, out: &mut Vec<u8>) -> Result<(), Memory> {
        ConfField::put(alloc, &value.conf, out)?;
        StatusField::put(alloc, &value.status, out)?;
        Maybe::<TextField>::put(alloc, &value.reason, out)?;
        LongList::<SubjectField>::put(alloc, &value.listed, out)?;
        Maybe::<TimeField>::put(alloc, &value.asked, out)?;
        NumberField::put(alloc, &value.made, out)?;
        LongList::<TokenField>::put(alloc, &value.owed, out)
    }

    fn take(alloc: Global, bytes: &mut Reading<'_>) -> Result<BaseStream, PartFault> {
        let conf = ConfField::take(alloc, bytes)?;
        let status = StatusField::take(alloc, bytes)?;
        let reason = Maybe::<TextField>::take(alloc, bytes)?;
        let listed = LongList::<SubjectField>::take(alloc, bytes)?;
        let asked = Maybe::<TimeField>::take(alloc, bytes)?;
        let made = NumberField::take(alloc, bytes)?;
        let owed = LongList::<TokenField>::take(alloc, bytes)?;
        Ok(BaseStream {
            conf,
            status,
            reason,
            listed,
            asked,
            made,
            owed,
        })
    }
}

/// A token that a publication made: its stream and its number.
pub(crate) struct IssuedField;

impl Field for IssuedField {
    type Value = Issued;

    ghost spelled = { parts.issued_bytes };

    ghost read = { parts.issued };

    fn put(alloc: Global, value: &Issued, out: &mut Vec<u8>) -> Result<(), Memory> {
        TextField::put(alloc, &value.stream, out)?;
        NumberField::put(alloc, &value.number, out)
    }

    fn take(alloc: Global, bytes: &mut Reading<'_>) -> Result<Issued, PartFault> {
        let stream = TextField::take(alloc, bytes)?;
        let number = NumberField::take(alloc, bytes)?;
        Ok(Issued { stream, number })
    }
}

/// A publication: its name, its news, and the tokens that it made.
pub(crate) struct PublicationField;

impl Field for PublicationField {
    type Value = BasePublication;

    ghost spelled = { parts.publication_bytes };

    ghost read = { parts.publication };

    fn put(alloc: Global, value: &BasePublication, out: &mut Vec<u8>) -> Result<(), Memory> {
        TextField::put(alloc, &value.id, out)?;
        NewsField::put(alloc, &value.news, out)?;
        LongList::<IssuedField>::put(alloc, &value.tokens, out)
    }

    fn take(alloc: Global, bytes: &mut Reading<'_>) -> Result<BasePublication, PartFault> {
        let id = TextField::take(alloc, bytes)?;
        let news = NewsField::take(alloc, bytes)?;
        let tokens = LongList::<IssuedField>::take(alloc, bytes)?;
        Ok(BasePublication { id, news, tokens })
    }
}

/// A token that was reported as faulty.
pub(crate) struct RefusedField;

impl Field for RefusedField {
    type Value = RefusedToken;

    ghost spelled = { parts.refused_bytes };

    ghost read = { parts.refused };

    fn put(alloc: Global, value: &RefusedToken, out: &mut Vec<u8>) -> Result<(), Memory> {
        TextField::put(alloc, &value.stream, out)?;
        NumberField::put(alloc, &value.number, out)?;
        Maybe::<TextField>::put(alloc, &value.id, out)?;
        Maybe::<TextField>::put(alloc, &value.code, out)?;
        TimeField::put(alloc, &value.time, out)
    }

    fn take(alloc: Global, bytes: &mut Reading<'_>) -> Result<RefusedToken, PartFault> {
        let stream = TextField::take(alloc, bytes)?;
        let number = NumberField::take(alloc, bytes)?;
        let id = Maybe::<TextField>::take(alloc, bytes)?;
        let code = Maybe::<TextField>::take(alloc, bytes)?;
        let time = TimeField::take(alloc, bytes)?;
        Ok(RefusedToken {
            stream,
            number,
            id,
            code,
            time,
        })
    }
}

/// What was reported as faulty: how many were left out, and those that are kept.
pub(crate) struct RefusalsField;

impl Field for RefusalsField {
    type Value = BaseRefusals;

    ghost spelled = { parts.refusals_bytes };

    ghost read = { parts.refusals };

    fn put(alloc: Global, value: &BaseRefusals, out: &mut Vec<u8>) -> Result<(), Memory> {
        NumberField::put(alloc, &value.before, out)?;
        LongList::<RefusedField>::put(alloc, &value.kept, out)
    }

    fn take(alloc: Global, bytes: &mut Reading<'_>) -> Result<BaseRefusals, PartFault> {
        let before = NumberField::take(alloc, bytes)?;
        let kept = LongList::<RefusedField>::take(alloc, bytes)?;
        Ok(BaseRefusals { before, kept })
    }
}
