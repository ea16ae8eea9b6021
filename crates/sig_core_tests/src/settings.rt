//! Places, and the settings of both servers, by hand.

use sig_json::Memory;
use sig_rxsettings::rx_settings;
use sig_settings::{SettingsFault, place_of};
use sig_txsettings::tx_settings;
use std::alloc::Global;
use std::test::Fail;

// Whether a text spells the place with this host and this port.
fn spells(alloc: Global, text: &str, host: &str, port: u16) -> Result<bool, Memory> {
    match place_of(alloc, text)? {
        Some(place) => Ok(place.host.as_str() == host && place.port == port),
        None => Ok(false),
    }
}

#[test]
fn a_place_has_a_host_and_a_port(rt: HostRuntime) -> Result<(), Fail> {
    assert!(rt; spells(rt.alloc(), "rp.example:8443", "rp.example", 8_443)?);
    Ok(())
}

#[test]
fn a_place_needs_its_port(rt: HostRuntime) -> Result<(), Fail> {
    for text in ["rp.example", "rp.example:0", "rp.example:80/"] {
        assert!(rt; place_of(rt.alloc(), text)?.is_none());
    }
    Ok(())
}

const TRANSMITTER: &[u8] =
    br#"{"issuer":"https://idp.example","base":"http://tx.example","listen":"127.0.0.1:8080","operator":"op","default_subjects":"ALL","min_verification_interval":60,"key":{"k":"MDEyMzQ1Njc4OWFiY2RlZjAxMjM0NTY3ODlhYmNkZWY","kid":"k1"},"clients":[{"aud":["https://rp.example"],"bearer":"acme-1","name":"acme"}]}"#;

// Whether they are read, with their key and their one client.
fn is_transmitter_read(alloc: Global) -> Result<bool, SettingsFault> {
    let said = tx_settings(alloc, TRANSMITTER)?;
    let rules = &said.rules;
    let has_key = rules.key.bytes.as_slice() == b"0123456789abcdef0123456789abcdef".as_slice();
    let has_numbers = said.listen.port == 8_080 && rules.interval == 60;
    Ok(has_key && has_numbers && rules.gateway.is_none() && rules.clients.as_slice().len() == 1)
}

#[test]
fn a_transmitters_settings_are_read(rt: HostRuntime) -> Result<(), Fail> {
    assert!(rt; is_transmitter_read(rt.alloc())?);
    Ok(())
}

// `listen` has no port, and `operator` a space.
const WRONG_TRANSMITTER: &[u8] =
    br#"{"issuer":"https://idp.example","base":"","listen":"tx.example","operator":"a b"}"#;

fn is_named(fault: &SettingsFault, member: &str) -> bool {
    match fault {
        SettingsFault::Refused(name) => name.as_str() == member,
        SettingsFault::Memory => false,
    }
}

fn is_transmitter_refused(alloc: Global, member: &str) -> bool {
    match tx_settings(alloc, WRONG_TRANSMITTER) {
        Ok(_) => false,
        Err(fault) => is_named(&fault, member),
    }
}

#[test]
fn the_first_wrong_member_is_named(rt: HostRuntime) -> Result<(), Fail> {
    assert!(rt; is_transmitter_refused(rt.alloc(), "listen"));
    Ok(())
}

const RECEIVER: &[u8] =
    br#"{"audience":"https://rp.example","listen":"0.0.0.0:8081","reader":"r","issuers":[{"iss":"https://idp.example","keys":[{"k":"MDEyMzQ1Njc4OWFiY2RlZjAxMjM0NTY3ODlhYmNkZWY"}]}],"principals":[{"bearer":"b","iss":"https://idp.example"}],"poll":{"bearer":"p","iss":"https://idp.example","url":"https://tx.example/poll/s"},"tls_gateway":"gw:3128"}"#;

// Whether they are read, with their peer and the gateway that leads to it.
fn is_receiver_read(alloc: Global) -> Result<bool, SettingsFault> {
    let said = rx_settings(alloc, RECEIVER)?;
    let Some(peer) = &said.rules.peer else {
        return Ok(false);
    };
    match &peer.gateway {
        Some(gateway) => Ok(gateway.port == 3_128 && peer.endpoint.place.port == 443),
        None => Ok(false),
    }
}

#[test]
fn a_receivers_settings_are_read(rt: HostRuntime) -> Result<(), Fail> {
    assert!(rt; is_receiver_read(rt.alloc())?);
    Ok(())
}

const WITHOUT_GATEWAY: &[u8] =
    br#"{"audience":"https://rp.example","listen":"0.0.0.0:8081","reader":"r","issuers":[{"iss":"https://idp.example","keys":[{"k":"MDEyMzQ1Njc4OWFiY2RlZjAxMjM0NTY3ODlhYmNkZWY"}]}],"principals":[],"poll":{"bearer":"p","iss":"https://idp.example","url":"https://tx.example/poll/s"}}"#;

fn is_receiver_refused(alloc: Global, member: &str) -> bool {
    match rx_settings(alloc, WITHOUT_GATEWAY) {
        Ok(_) => false,
        Err(fault) => is_named(&fault, member),
    }
}

#[test]
fn https_is_polled_through_a_gateway(rt: HostRuntime) -> Result<(), Fail> {
    assert!(rt; is_receiver_refused(rt.alloc(), "poll.url"));
    Ok(())
}
