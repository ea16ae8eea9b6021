//! A transmitter answers links while another one is held: what is published meanwhile is in the answer to a poll whose body
//! comes after that (RFC 8936, section 2).

ghost use Rattle.std.specs.Prelude.{IfOk};
ghost use Rattle.sig_calls.specs.Proper.{IsProperCall, IsProperRules};

use crate::board::Board;
use crate::held_door::HeldDoor;
use crate::held_link::{Hold, Plan};
use crate::outcome::{all_succeed, has_texts, outcome_of};
use crate::stores::{Files, store};
use crate::watched::watch_transmitter;
use sig_json::{Bytes, Memory, Text};
use sig_outside::MemDisk;
use sig_terms::{Call, Rules, Want};
use sig_txend::Company;
use sig_txnode::{LoadRefused, TxNode};
use sig_txsettings::{TxSettings, tx_settings};
use std::alloc::Global;
use std::rt::Clock;
use std::sync::Wait;
use std::test::Fail;
use std::thread::Threads;

const SETTINGS: &[u8] =
    br#"{"issuer":"https://idp.example","base":"http://tx.example","listen":"127.0.0.1:8080","operator":"op","default_subjects":"ALL","min_verification_interval":60,"key":{"k":"MDEyMzQ1Njc4OWFiY2RlZjAxMjM0NTY3ODlhYmNkZWY","kid":"k1"},"clients":[{"aud":["https://rp.example"],"bearer":"acme-1","name":"acme"}]}"#;

const POLL_HEAD: &[u8] =
    b"POST /poll/acme-1 HTTP/1.1\r\nhost: test\r\nauthorization: Bearer acme-1\r\ncontent-type: application/json\r\ncontent-length: 26\r\n\r\n";

const POLL_BODY: &[u8] = br#"{"returnImmediately":true}"#;

const PUBLISH_HEAD: &[u8] =
    b"POST /operator/publish HTTP/1.1\r\nhost: test\r\nauthorization: Bearer op\r\ncontent-type: application/json\r\ncontent-length: 178\r\n\r\n";

const PUBLISH_BODY: &[u8] =
    br#"{"publish_id":"6ba7b812-9dad-11d1-80b4-00c04fd430c8","sub_id":{"format":"opaque","id":"s-77"},"events":{"https://schemas.openid.net/secevent/caep/event-type/session-revoked":{}}}"#;

// The first token of the stream, by the name of the store.
const TOKEN: &str = "6ba7b810-9dad-11d1-80b4-00c04fd430c8.acme-1.1";

fn rules(alloc: Global) -> Result<Rules, Memory>
    ensures { IfOk result IsProperRules }
{
    match tx_settings(alloc, SETTINGS) {
        Ok(said) => {
            let TxSettings { rules, listen: _ } = said;
            Ok(rules)
        }
        Err(_) => Err(Memory),
    }
}

fn creation(alloc: Global) -> Result<Call, Memory>
    ensures { IfOk result IsProperCall }
{
    let client = Text::of(alloc, "acme")?;
    let want = Want {
        requested: None,
        delivery: None,
        description: None,
    };
    Ok(Call::Create { client, want })
}

/// A node without a stream.
pub fn empty_node(alloc: Global) -> Result<TxNode<MemDisk>, Memory> {
    let rules = rules(alloc)?;
    let Files { a, b } = store(alloc, b'T', 0..0)?;
    match TxNode::load(alloc, a, b, rules) {
        Ok(node) => Ok(node),
        Err(
            LoadRefused {
                fault: _,
                a: _,
                b: _,
            },
        ) => Err(Memory),
    }
}

// A node with an enabled poll stream.
fn node(alloc: Global) -> Result<TxNode<MemDisk>, Memory> {
    let creation = creation(alloc)?;
    let mut node = empty_node(alloc)?;
    match node.take(0, &creation, 1) {
        Ok(_) => Ok(node),
        Err(_) => {
            let _ = node.into_disks();
            Err(Memory)
        }
    }
}

fn poll(hold: Hold) -> Plan {
    Plan {
        head: POLL_HEAD,
        body: POLL_BODY,
        hold,
        after: 0,
    }
}

/// A publication, which comes once so many links have ended.
pub fn publish(hold: Hold, after: u64) -> Plan {
    Plan {
        head: PUBLISH_HEAD,
        body: PUBLISH_BODY,
        hold,
        after,
    }
}

// What is written to the links of these plans, the last one first, by a watch that is done with all, and with the one errand
// that lists the push streams.
fn written_to<R: Threads + Wait + Clock + Sync>(
    alloc: Global,
    rt: &R,
    plans: Vec<Plan>,
) -> Result<Vec<Bytes>, Memory> {
    let count = plans.len();
    let node = node(alloc)?;
    if node.broken_at().is_some() {
        let _ = node.into_disks();
        return Err(Memory);
    }
    let board = Board::new(rt);
    let mut door = HeldDoor::new(alloc, &board, plans);
    let (end, _) = watch_transmitter(alloc, rt, node, Company::new(alloc), &mut door);
    let (node, report) = outcome_of(end);
    let _ = node.into_disks();
    match report {
        Some(report) if report.shut && report.links as usize == count + 1 => {
            Ok(door.into_written())
        }
        _ => Err(Memory),
    }
}

#[test]
fn a_poll_that_is_held_lists_what_is_published_meanwhile(rt: HostRuntime) -> Result<(), Fail> {
    let alloc = rt.alloc();
    let mut plans = Vec::new(alloc);
    plans.push(publish(Hold::Begun(2), 0))?;
    plans.push(poll(Hold::Answered(1)))?;
    let written = written_to(alloc, &rt, plans)?;
    assert!(rt; written.len() == 2 && has_texts(written.as_slice(), TOKEN, r#""sets""#));
    Ok(())
}

#[test]
fn two_polls_that_wait_for_each_other_are_answered(rt: HostRuntime) -> Result<(), Fail> {
    let alloc = rt.alloc();
    let mut plans = Vec::new(alloc);
    plans.push(poll(Hold::Begun(2)))?;
    plans.push(poll(Hold::Begun(2)))?;
    let written = written_to(alloc, &rt, plans)?;
    assert!(rt; written.len() == 2 && all_succeed(written.as_slice()));
    Ok(())
}

#[test]
fn a_poll_that_stays_open_keeps_none_out(rt: HostRuntime) -> Result<(), Fail> {
    let alloc = rt.alloc();
    let mut plans = Vec::new(alloc);
    for _ in 0..199 {
        plans.push(poll(Hold::Begun(2)))?;
    }
    plans.push(poll(Hold::Answered(199)))?;
    let written = written_to(alloc, &rt, plans)?;
    assert!(rt; written.len() == 200 && all_succeed(written.as_slice()));
    Ok(())
}
