//! The clients of a transmitter.

ghost use Rattle.std.specs.Prelude.{◌≡◌};
ghost use Rattle.std.specs.List.{list_all};
ghost use Rattle.serde_json.specs.View.{view};
ghost use Rattle.sig_json.specs.Answers.{Answers};
ghost use Rattle.sig_history.specs.Sound.{is_client_name, is_name_character};
ghost use Rattle.sig_txsettings.specs.Clients as spec;

use sig_json::limits::{CLIENT_NAME_BYTES, CLIENTS};
use sig_json::{Items, Text, Value};
use sig_settings::{
    AnyText, BearerText, ListOf, SettingKind, SettingsFault, TextOf, ValueFault, bearers_differ,
    each_once, itself, member_in, needed, whole,
};
use sig_terms::Client;
use std::alloc::Global;

/// The clients of settings with this operator. What is missing or wrong in them is told by its path: `clients` where they are
/// no list of at most 64 clients with names of their own, and a client's bearer where it is the operator's or that of a
/// client before it.
#[tactic(auto, unfolding(crate::specs::Clients::clients_in))]
pub fn clients_in(
    alloc: Global,
    settings: &Value,
    operator: &Text,
) -> Result<Items<Client>, SettingsFault>
    ensures { Answers SettingsFault.Memory result (spec.clients_in operator.now (view settings.now)) }
{
    let clients = needed::<ClientList>(alloc, settings, "clients")?;
    bearers_differ::<Bearer>(alloc, operator, clients.as_slice(), "clients")?;
    Ok(clients)
}

struct ClientList;

impl SettingKind for ClientList {
    type Kept = Items<Client>;

    ghost said = { spec.clients_at };

    fn keep(alloc: Global, value: &Value) -> Result<Items<Client>, ValueFault> {
        let clients = ListOf::<ClientObject>::keep(alloc, value)?;
        if !are_apart(clients.as_slice()) {
            return Err(itself(alloc));
        }
        Ok(clients)
    }
}

fn are_apart(clients: &[Client]) -> bool
    ensures { result ≡ spec.are_apart clients.now }
{
    clients.len() <= CLIENTS && each_once::<Name>(clients)
}

struct Name;

impl TextOf for Name {
    type Item = Client;

    ghost text = { spec.name_of };

    fn text_of(item: &Client) -> &Text {
        &item.name
    }
}

struct Bearer;

impl TextOf for Bearer {
    type Item = Client;

    ghost text = { spec.bearer_of };

    fn text_of(item: &Client) -> &Text {
        &item.bearer
    }
}

struct ClientObject;

impl SettingKind for ClientObject {
    type Kept = Client;

    ghost said = { spec.client_at };

    fn keep(alloc: Global, value: &Value) -> Result<Client, ValueFault> {
        whole(alloc, value)?;
        let aud = member_in::<Audience>(alloc, value, "aud")?;
        let bearer = member_in::<BearerText>(alloc, value, "bearer")?;
        let name = member_in::<ClientName>(alloc, value, "name")?;
        Ok(Client { name, bearer, aud })
    }
}

struct Audience;

impl SettingKind for Audience {
    type Kept = Items<Text>;

    ghost said = { spec.audience_at };

    fn keep(alloc: Global, value: &Value) -> Result<Items<Text>, ValueFault> {
        let texts = ListOf::<AnyText>::keep(alloc, value)?;
        if texts.as_slice().is_empty() {
            return Err(itself(alloc));
        }
        Ok(texts)
    }
}

struct ClientName;

impl SettingKind for ClientName {
    type Kept = Text;

    ghost said = { spec.client_name_at };

    fn keep(alloc: Global, value: &Value) -> Result<Text, ValueFault> {
        match value.as_str() {
            Some(name) if is_client_name(name) => Ok(Text::of(alloc, name)?),
            _ => Err(itself(alloc)),
        }
    }
}

fn is_client_name(name: &str) -> bool
    ensures { result ≡ is_client_name name.now }
{
    !name.is_empty() && name.len() <= CLIENT_NAME_BYTES && are_name_characters(name.as_bytes())
}

fn are_name_characters(name: &[u8]) -> bool
    ensures { result ≡ list_all is_name_character name.now }
{
    name.iter()
        .all(|byte| byte.is_ascii_lowercase() || byte.is_ascii_digit())
}
