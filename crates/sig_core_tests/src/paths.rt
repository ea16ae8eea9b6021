//! The path at which settings are refused, `ok` where they are taken: each row has a part of them, and the path.

use sig_json::{Memory, Text};
use sig_rxsettings::rx_settings;
use sig_settings::SettingsFault;
use sig_txsettings::tx_settings;
use std::alloc::Global;
use std::test::Fail;

fn told<T: Drop>(alloc: Global, read: Result<T, SettingsFault>) -> Result<Text, Memory> {
    match read {
        Ok(_) => Text::of(alloc, "ok"),
        Err(SettingsFault::Refused(path)) => Ok(path),
        Err(SettingsFault::Memory) => Err(Memory),
    }
}

// ---- a receiver's issuers

fn by_issuers(alloc: Global, issuers: &str) -> Result<Text, Memory> {
    let text = format!(in alloc;
        r#"{{"audience":"a","listen":"h:1","reader":"r","issuers":{issuers},"principals":[]}}"#
    )?;
    told(alloc, rx_settings(alloc, text.as_str().as_bytes()))
}

const ISSUERS: [(&str, &str); 16] = [
    (r#"[]"#, "ok"),
    (r#"{}"#, "issuers"),
    (r#"[5]"#, "issuers[0]"),
    (r#"[{}]"#, "issuers[0].iss"),
    (r#"[{"iss":"a","keys":{}}]"#, "issuers[0].keys"),
    (r#"[{"iss":"a","keys":[]}]"#, "issuers[0].keys"),
    (r#"[{"iss":"a","keys":[[]]}]"#, "issuers[0].keys[0]"),
    (
        r#"[{"iss":"a","keys":[{"kid":"k"}]}]"#,
        "issuers[0].keys[0].k",
    ),
    (
        r#"[{"iss":"a","keys":[{"k":"MDEyMzQ1Njc4OWFiY2RlZjAxMjM0NTY3ODlhYmNkZWY","kid":""}]}]"#,
        "issuers[0].keys[0].kid",
    ),
    (
        r#"[{"iss":"a","keys":[{"k":"MDEyMzQ1Njc4OWFiY2RlZjAxMjM0NTY3ODlhYmNkZWY"}]},{"iss":1}]"#,
        "issuers[1].iss",
    ),
    (
        r#"[{"iss":"a","keys":[{"k":"MDEyMzQ1Njc4OWFiY2RlZjAxMjM0NTY3ODlhYmNkZWY"},{"k":"MDEy"}]},{"iss":1}]"#,
        "issuers[0].keys[1].k",
    ),
    // Two issuers of one name, told at the list.
    (
        r#"[{"iss":"a","keys":[{"k":"MDEyMzQ1Njc4OWFiY2RlZjAxMjM0NTY3ODlhYmNkZWY"}]},{"iss":"a","keys":[{"k":"MDEyMzQ1Njc4OWFiY2RlZjAxMjM0NTY3ODlhYmNkZWY"}]}]"#,
        "issuers",
    ),
    // An object with a type of key is no secret, and neither is one with a modulus.
    (
        r#"[{"iss":"a","keys":[{"kty":"oct","k":"MDEyMzQ1Njc4OWFiY2RlZjAxMjM0NTY3ODlhYmNkZWY"}]}]"#,
        "issuers[0].keys[0].kty",
    ),
    (
        r#"[{"iss":"a","keys":[{"n":"AQAB","k":"MDEyMzQ1Njc4OWFiY2RlZjAxMjM0NTY3ODlhYmNkZWY"}]}]"#,
        "issuers[0].keys[0].kty",
    ),
    (
        r#"[{"iss":"a","keys":[{"kty":"RSA","alg":"RS256","e":"AQAB"}]}]"#,
        "issuers[0].keys[0].n",
    ),
    (
        r#"[{"iss":"a","keys":[{"kty":"RSA","alg":"RS256","e":"AQAB","n":"AQAB"}]}]"#,
        "issuers[0].keys[0].n",
    ),
];

#[test]
fn a_fault_of_an_issuer_is_told_by_its_path(rt: HostRuntime) -> Result<(), Fail> {
    for (issuers, path) in ISSUERS {
        assert!(rt; by_issuers(rt.alloc(), issuers)?.as_str() == path);
    }
    Ok(())
}

// ---- public keys

// The modulus of RFC 7515, appendix A.2.1.
const N: &str =
    "ofgWCuLjybRlzo0tZWJjNiuSfb4p4fAkd_wWJcyQoTbji9k0l8W26mPddxHmfHQp-Vaw-4qPCJrcS2mJPMEzP1Pt0Bm4d4QlL-yRT-SFd2lZS-pCgNMsD1W_YpRPEwOWvG6b32690r2jZ47soMZo9wGzjb_7OMg0LOL-bSf63kpaSHSXndS5z5rexMdbBYUsLA9e-KXBdQOS-UTo7WTBEMa2R2CapHg665xsmtdVMTBQY4uDZlxvb3qCo5ZwKh9kG4LT6_I5IhlJH7aGhyxXFvUK-DWNmoudF8NAco9_h9iaGNj8q2ethFkMLs91kzk2PAcDTW9gb54h4FRWyuXpo";

fn by_key(alloc: Global, before: &str, after: &str) -> Result<Text, Memory> {
    let issuers = format!(in alloc; r#"[{{"iss":"a","keys":[{before}{N}{after}]}}]"#)?;
    by_issuers(alloc, issuers.as_str())
}

// What stands before the modulus's last letter and after it.
const PUBLIC_KEYS: [(&str, &str, &str); 15] = [
    (
        r#"{"kty":"RSA","alg":"RS256","e":"AQAB","n":""#,
        r#"Q"}"#,
        "ok",
    ),
    (
        r#"{"kty":"RSA","alg":"RS256","e":"AQAB","kid":"k1","n":""#,
        r#"Q","use":"sig"}"#,
        "ok",
    ),
    (
        r#"{"alg":"RS256","e":"AQAB","n":""#,
        r#"Q"}"#,
        "issuers[0].keys[0].kty",
    ),
    (
        r#"{"kty":"EC","alg":"RS256","e":"AQAB","n":""#,
        r#"Q"}"#,
        "issuers[0].keys[0].kty",
    ),
    (
        r#"{"kty":"RSA","e":"AQAB","n":""#,
        r#"Q"}"#,
        "issuers[0].keys[0].alg",
    ),
    (
        r#"{"kty":"RSA","alg":"RS512","e":"AQAB","n":""#,
        r#"Q"}"#,
        "issuers[0].keys[0].alg",
    ),
    (
        r#"{"kty":"RSA","alg":"RS256","e":"AQAB","k":"MDEyMzQ1Njc4OWFiY2RlZjAxMjM0NTY3ODlhYmNkZWY","n":""#,
        r#"Q"}"#,
        "issuers[0].keys[0].k",
    ),
    (
        r#"{"kty":"RSA","alg":"RS256","e":"AQAB","kid":"a b","n":""#,
        r#"Q"}"#,
        "issuers[0].keys[0].kid",
    ),
    // Bits beyond the last octet, and padding.
    (
        r#"{"kty":"RSA","alg":"RS256","e":"AQAB","n":""#,
        r#"R"}"#,
        "issuers[0].keys[0].n",
    ),
    (
        r#"{"kty":"RSA","alg":"RS256","e":"AQAB","n":""#,
        r#"Q=="}"#,
        "issuers[0].keys[0].n",
    ),
    (
        r#"{"kty":"RSA","alg":"RS256","n":""#,
        r#"Q"}"#,
        "issuers[0].keys[0].e",
    ),
    // An exponent of 1, and one with a zero octet before it.
    (
        r#"{"kty":"RSA","alg":"RS256","e":"AQ","n":""#,
        r#"Q"}"#,
        "issuers[0].keys[0].e",
    ),
    (
        r#"{"kty":"RSA","alg":"RS256","e":"AAEAAQ","n":""#,
        r#"Q"}"#,
        "issuers[0].keys[0].e",
    ),
    // Four keys of both kinds, and five.
    (
        r#"{"k":"MDEyMzQ1Njc4OWFiY2RlZjAxMjM0NTY3ODlhYmNkZWY"},{"kty":"RSA","alg":"RS256","e":"AQAB","n":""#,
        r#"Q"},{"k":"MDEyMzQ1Njc4OWFiY2RlZjAxMjM0NTY3ODlhYmNkZWY"},{"k":"MDEyMzQ1Njc4OWFiY2RlZjAxMjM0NTY3ODlhYmNkZWY"}"#,
        "ok",
    ),
    (
        r#"{"k":"MDEyMzQ1Njc4OWFiY2RlZjAxMjM0NTY3ODlhYmNkZWY"},{"kty":"RSA","alg":"RS256","e":"AQAB","n":""#,
        r#"Q"},{"k":"MDEyMzQ1Njc4OWFiY2RlZjAxMjM0NTY3ODlhYmNkZWY"},{"k":"MDEyMzQ1Njc4OWFiY2RlZjAxMjM0NTY3ODlhYmNkZWY"},{"k":"MDEyMzQ1Njc4OWFiY2RlZjAxMjM0NTY3ODlhYmNkZWY"}"#,
        "issuers[0].keys",
    ),
];

#[test]
fn a_public_key_is_taken_or_told_by_its_path(rt: HostRuntime) -> Result<(), Fail> {
    for (before, after, path) in PUBLIC_KEYS {
        assert!(rt; by_key(rt.alloc(), before, after)?.as_str() == path);
    }
    Ok(())
}

// ---- a receiver's bearers

fn by_principals(alloc: Global, rest: &str) -> Result<Text, Memory> {
    let text = format!(in alloc;
        r#"{{"audience":"a","listen":"h:1","reader":"r","issuers":[],"principals":{rest}}}"#
    )?;
    told(alloc, rx_settings(alloc, text.as_str().as_bytes()))
}

const RECEIVED_BY: [(&str, &str); 9] = [
    (
        r#"[{"bearer":"a","iss":"i"},{"bearer":"b","iss":"i"}]"#,
        "ok",
    ),
    (
        r#"[{"bearer":"a","iss":"i"},{"bearer":"b c","iss":"i"}]"#,
        "principals[1].bearer",
    ),
    (
        r#"[{"bearer":"a","iss":"i"},{"bearer":"b","iss":1}]"#,
        "principals[1].iss",
    ),
    (
        r#"[{"bearer":"r","iss":"i"},{"bearer":"b","iss":"i"}]"#,
        "principals[0].bearer",
    ),
    (
        r#"[{"bearer":"a","iss":"i"},{"bearer":"b","iss":"i"},{"bearer":"a","iss":"i"},{"bearer":"b","iss":"i"}]"#,
        "principals[2].bearer",
    ),
    (
        r#"[{"bearer":"a","iss":"i"}],"poll":{"bearer":"b","iss":"i","url":"http://h/"}"#,
        "ok",
    ),
    (
        r#"[{"bearer":"a","iss":"i"}],"poll":{"bearer":"a","iss":"i","url":"http://h/"}"#,
        "poll.bearer",
    ),
    (
        r#"[{"bearer":"a","iss":"i"}],"poll":{"bearer":"r","iss":"i","url":"http://h/"}"#,
        "poll.bearer",
    ),
    (
        r#"[{"bearer":"a","iss":"i"}],"poll":{"bearer":"b","iss":"i","url":"https://h/"}"#,
        "poll.url",
    ),
];

#[test]
fn a_receivers_bearers_differ(rt: HostRuntime) -> Result<(), Fail> {
    for (rest, path) in RECEIVED_BY {
        assert!(rt; by_principals(rt.alloc(), rest)?.as_str() == path);
    }
    Ok(())
}

// ---- a transmitter's key and clients

fn by_clients(alloc: Global, rest: &str) -> Result<Text, Memory> {
    let text = format!(in alloc;
        r#"{{"issuer":"i","base":"","listen":"h:1","operator":"op","default_subjects":"ALL","min_verification_interval":0,"key":{rest}}}"#
    )?;
    told(alloc, tx_settings(alloc, text.as_str().as_bytes()))
}

const SENT_BY: [(&str, &str); 11] = [
    (
        r#"{"k":"MDEyMzQ1Njc4OWFiY2RlZjAxMjM0NTY3ODlhYmNkZWY"},"clients":[]"#,
        "ok",
    ),
    (r#"7"#, "key"),
    (r#"{"k":"MDEy"}"#, "key.k"),
    (
        r#"{"k":"MDEyMzQ1Njc4OWFiY2RlZjAxMjM0NTY3ODlhYmNkZWY","kid":7}"#,
        "key.kid",
    ),
    (
        r#"{"k":"MDEyMzQ1Njc4OWFiY2RlZjAxMjM0NTY3ODlhYmNkZWY"}"#,
        "clients",
    ),
    (
        r#"{"k":"MDEyMzQ1Njc4OWFiY2RlZjAxMjM0NTY3ODlhYmNkZWY"},"clients":[{"aud":["a",7],"bearer":"b","name":"n"}]"#,
        "clients[0].aud[1]",
    ),
    (
        r#"{"k":"MDEyMzQ1Njc4OWFiY2RlZjAxMjM0NTY3ODlhYmNkZWY"},"clients":[{"aud":[],"bearer":"b","name":"n"}]"#,
        "clients[0].aud",
    ),
    (
        r#"{"k":"MDEyMzQ1Njc4OWFiY2RlZjAxMjM0NTY3ODlhYmNkZWY"},"clients":[{"aud":["a"],"bearer":"b","name":"N"}]"#,
        "clients[0].name",
    ),
    (
        r#"{"k":"MDEyMzQ1Njc4OWFiY2RlZjAxMjM0NTY3ODlhYmNkZWY"},"clients":[{"aud":["a"],"bearer":"b","name":"n"},{"aud":["a"],"bearer":"b","name":"n"}]"#,
        "clients",
    ),
    (
        r#"{"k":"MDEyMzQ1Njc4OWFiY2RlZjAxMjM0NTY3ODlhYmNkZWY"},"clients":[{"aud":["a"],"bearer":"b","name":"n"},{"aud":["a"],"bearer":"b","name":"m"}]"#,
        "clients[1].bearer",
    ),
    (
        r#"{"k":"MDEyMzQ1Njc4OWFiY2RlZjAxMjM0NTY3ODlhYmNkZWY"},"clients":[{"aud":["a"],"bearer":"b","name":"n"},{"aud":["a"],"bearer":"op","name":"m"}]"#,
        "clients[1].bearer",
    ),
];

#[test]
fn a_fault_of_a_client_is_told_by_its_path(rt: HostRuntime) -> Result<(), Fail> {
    for (rest, path) in SENT_BY {
        assert!(rt; by_clients(rt.alloc(), rest)?.as_str() == path);
    }
    Ok(())
}
