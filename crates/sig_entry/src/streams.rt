//! What facts say of streams, as fields.

ghost use Rattle.std.specs.Prelude.{◌≡◌, IfOk};
ghost use Rattle.sig_fields.specs.Kinds as kinds;
ghost use Rattle.sig_fields.specs.Reading.{Takes, ruled};
ghost use Rattle.sig_entry.specs.Parts as parts;

use sig_event::Status;
use sig_fields::{Field, FlagField, ListOf, Maybe, NumberField, PartFault, Reading, TextField};
use sig_json::limits::INTERVAL_SECONDS;
use sig_json::{Memory, Text};
use sig_stream::endpoint_of;
use sig_terms::{Defaults, Delivery, Endpoint, SettledItem, StreamConf};
use std::alloc::Global;

/// The status of a stream, in one byte.
pub struct StatusField;

impl Field for StatusField {
    type Value = Status;

    ghost spelled = { parts.status_bytes };

    ghost read = { parts.status };

    fn put(_alloc: Global, value: &Status, out: &mut Vec<u8>) -> Result<(), Memory> {
        let byte = match value {
            Status::Enabled => 0,
            Status::Paused => 1,
            Status::Disabled => 2,
        };
        out.push(byte)?;
        Ok(())
    }

    fn take(_alloc: Global, bytes: &mut Reading<'_>) -> Result<Status, PartFault> {
        let begun = bytes.rest();
        let byte = bytes.take_byte()?;
        bytes.accept(begun, status_in(byte))
    }
}

fn status_in(byte: u8) -> Option<Status>
    ensures { result ≡ parts.status_in byte }
{
    match byte {
        0 => Some(Status::Enabled),
        1 => Some(Status::Paused),
        2 => Some(Status::Disabled),
        _ => None,
    }
}

/// The default subjects of a stream: a flag, which says whether they are all.
pub struct DefaultsField;

impl Field for DefaultsField {
    type Value = Defaults;

    ghost spelled = { parts.defaults_bytes };

    ghost read = { parts.default_subjects };

    fn put(alloc: Global, value: &Defaults, out: &mut Vec<u8>) -> Result<(), Memory> {
        FlagField::put(alloc, &matches!(value, Defaults::All), out)
    }

    fn take(alloc: Global, bytes: &mut Reading<'_>) -> Result<Defaults, PartFault> {
        if FlagField::take(alloc, bytes)? {
            return Ok(Defaults::All);
        }
        Ok(Defaults::None)
    }
}

/// The delivery of a stream: a flag, and for push the URL and the authorization, where it is there.
pub struct DeliveryField;

impl Field for DeliveryField {
    type Value = Delivery;

    ghost spelled = { parts.delivery_bytes };

    ghost read = { parts.delivery };

    fn put(alloc: Global, value: &Delivery, out: &mut Vec<u8>) -> Result<(), Memory> {
        FlagField::put(alloc, &value.is_push(), out)?;
        match value {
            Delivery::Poll => Ok(()),
            Delivery::Push {
                url,
                authorization,
                ..
            } => {
                TextField::put(alloc, url, out)?;
                Maybe::<TextField>::put(alloc, authorization, out)
            }
        }
    }

    fn take(alloc: Global, bytes: &mut Reading<'_>) -> Result<Delivery, PartFault> {
        if FlagField::take(alloc, bytes)? {
            return take_push(alloc, bytes);
        }
        Ok(Delivery::Poll)
    }
}

fn take_push(alloc: Global, bytes: &mut Reading<'_>) -> Result<Delivery, PartFault>
    ensures { Takes (parts.push bytes.old) result bytes.new }
{
    let (endpoint, url) = take_address(alloc, bytes)?;
    let authorization = Maybe::<TextField>::take(alloc, bytes)?;
    Ok(Delivery::Push {
        endpoint,
        url,
        authorization,
    })
}

// A URL with the endpoint that it spells.
fn take_address(alloc: Global, bytes: &mut Reading<'_>) -> Result<(Endpoint, Text), PartFault>
    ensures { Takes (ruled parts.address_in kinds.text bytes.old) result bytes.new }
{
    let begun = bytes.rest();
    let url = bytes.take_str()?;
    let address = address_in(alloc, url)?;
    bytes.accept(begun, address)
}

fn address_in(alloc: Global, url: &str) -> Result<Option<(Endpoint, Text)>, Memory>
    ensures { IfOk result (λ a. a ≡ parts.address_in url.now) }
{
    match endpoint_of(alloc, url)? {
        Some(endpoint) => Ok(Some((endpoint, Text::of(alloc, url)?))),
        None => Ok(None),
    }
}

/// A token that is owed no more: its number, and the code, where it is there.
pub struct SettledField;

impl Field for SettledField {
    type Value = SettledItem;

    ghost spelled = { parts.settled_bytes };

    ghost read = { parts.settled };

    fn put(alloc: Global, value: &SettledItem, out: &mut Vec<u8>) -> Result<(), Memory> {
        NumberField::put(alloc, &value.number, out)?;
        Maybe::<TextField>::put(alloc, &value.code, out)
    }

    fn take(alloc: Global, bytes: &mut Reading<'_>) -> Result<SettledItem, PartFault> {
        let number = NumberField::take(alloc, bytes)?;
        let code = Maybe::<TextField>::take(alloc, bytes)?;
        Ok(SettledItem { number, code })
    }
}

/// A configuration, field by field.
pub struct ConfField;

impl Field for ConfField {
    type Value = StreamConf;

    ghost spelled = { parts.conf_bytes };

    ghost read = { parts.configuration };

    fn put(alloc: Global, value: &StreamConf, out: &mut Vec<u8>) -> Result<(), Memory> {
        TextField::put(alloc, &value.stream, out)?;
        TextField::put(alloc, &value.iss, out)?;
        ListOf::<TextField>::put(alloc, &value.aud, out)?;
        Maybe::<ListOf<TextField>>::put(alloc, &value.requested, out)?;
        DeliveryField::put(alloc, &value.delivery, out)?;
        NumberField::put(alloc, &value.interval, out)?;
        DefaultsField::put(alloc, &value.defaults, out)?;
        Maybe::<TextField>::put(alloc, &value.description, out)
    }

    fn take(alloc: Global, bytes: &mut Reading<'_>) -> Result<StreamConf, PartFault> {
        let stream = TextField::take(alloc, bytes)?;
        let iss = TextField::take(alloc, bytes)?;
        let aud = ListOf::<TextField>::take(alloc, bytes)?;
        let requested = Maybe::<ListOf<TextField>>::take(alloc, bytes)?;
        let delivery = DeliveryField::take(alloc, bytes)?;
        let interval = bytes.take_up_to(INTERVAL_SECONDS)?;
        let defaults = DefaultsField::take(alloc, bytes)?;
        let description = Maybe::<TextField>::take(alloc, bytes)?;
        Ok(StreamConf {
            stream,
            iss,
            aud,
            requested,
            delivery,
            interval,
            defaults,
            description,
        })
    }
}
