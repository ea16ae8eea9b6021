//! A transmitter does by itself what nobody asks it for: it pushes a token that is owed since nobody was reached when it was
//! published, and where nobody is reached either it tries again once the stream is due (RFC 8935, section 2.4).

ghost use Rattle.std.specs.Prelude.{◌≡◌, IfOk, None};

use crate::board::Board;
use crate::held_door::{HeldDoor, Pause};
use crate::held_link::{Hold, Plan};
use crate::outcome::{all_succeed, has_texts, outcome_of};
use crate::transmitter::{empty_node, publish};
use crate::watched::watch_transmitter;
use sig_json::{Bytes, Memory};
use sig_outside::MemDisk;
use sig_txend::Company;
use sig_txnode::TxNode;
use std::alloc::Global;
use std::rt::Clock;
use std::sync::Wait;
use std::test::Fail;
use std::thread::Threads;

const CREATE_HEAD: &[u8] =
    b"POST /ssf/stream HTTP/1.1\r\nhost: test\r\nauthorization: Bearer acme-1\r\ncontent-type: application/json\r\ncontent-length: 85\r\n\r\n";

const CREATE_BODY: &[u8] =
    br#"{"delivery":{"method":"urn:ietf:rfc:8935","endpoint_url":"http://rp.example/events"}}"#;

const STREAMS: &[u8] =
    b"GET /operator/streams HTTP/1.1\r\nhost: test\r\nauthorization: Bearer op\r\n\r\n";

// What a watch came to.
#[derive(Drop)]
struct Came {
    // How many links and errands it had, where it was done and its door was shut.
    served: Option<u32>,
    // How often a side dialled in it.
    dials: u64,
    // How many tokens the stream owes after it.
    owed: Option<u64>,
    // What was written to its links.
    written: Vec<Bytes>,
}

// How many tokens the first stream owes.
fn owed_by(node: &TxNode<MemDisk>) -> Option<u64> {
    match node.copy() {
        Ok(state) => state.owed("acme-1"),
        Err(_) => None,
    }
}

// A watch by a transmitter that knows of no stream. The door's own sides reach a receiver after so many dials.
fn watch<R: Threads + Wait + Clock + Sync>(
    alloc: Global,
    rt: &R,
    node: TxNode<MemDisk>,
    pauses: Vec<Pause>,
    lost: u64,
    plans: Vec<Plan>,
) -> (TxNode<MemDisk>, Came)
    requires { node.store.broken_at ≡ None }
{
    let board = Board::new(rt);
    let mut door = HeldDoor::of_pauses(alloc, &board, pauses, lost, plans);
    let (end, _) = watch_transmitter(alloc, rt, node, Company::new(alloc), &mut door);
    let (node, report) = outcome_of(end);
    let served = match report {
        Some(report) if report.shut => Some(report.links),
        _ => None,
    };
    let owed = owed_by(&node);
    let came = Came {
        served,
        dials: board.dials(),
        owed,
        written: door.into_written(),
    };
    (node, came)
}

// The requests that make a push stream and publish a token for it, the last one first.
fn requests(alloc: Global) -> Result<Vec<Plan>, Memory> {
    let mut plans = Vec::new(alloc);
    plans.push(publish(Hold::Nothing, 1))?;
    plans.push(Plan {
        head: CREATE_HEAD,
        body: CREATE_BODY,
        hold: Hold::Nothing,
        after: 0,
    })?;
    Ok(plans)
}

// A node that isn't broken, with a push stream that owes a token: in a watch before, nobody was reached.
fn owing_node<R: Threads + Wait + Clock + Sync>(
    alloc: Global,
    rt: &R,
) -> Result<TxNode<MemDisk>, Memory>
    ensures { IfOk result (λ node. node.store.broken_at ≡ None) }
{
    let plans = requests(alloc)?;
    let node = empty_node(alloc)?;
    if node.broken_at().is_some() {
        let _ = node.into_disks();
        return Err(Memory);
    }
    let (node, came) = watch(alloc, rt, node, Vec::new(alloc), u64::MAX, plans);
    let is_published = came.served.is_some() && all_succeed(came.written.as_slice());
    if !is_published || came.owed != Some(1) || node.broken_at().is_some() {
        let _ = node.into_disks();
        return Err(Memory);
    }
    Ok(node)
}

// What a watch of such a node comes to.
fn watched<R: Threads + Wait + Clock + Sync>(
    alloc: Global,
    rt: &R,
    pauses: Vec<Pause>,
    lost: u64,
    plans: Vec<Plan>,
) -> Result<Came, Memory> {
    let node = owing_node(alloc, rt)?;
    let (node, came) = watch(alloc, rt, node, pauses, lost, plans);
    let _ = node.into_disks();
    Ok(came)
}

// The errand and the link have a number each, and the turns of both are compared.
#[test]
fn an_errand_brings_what_is_owed(rt: HostRuntime) -> Result<(), Fail> {
    let alloc = rt.alloc();
    let mut pauses = Vec::new(alloc);
    pauses.push(Pause {
        after: 1,
        seconds: 0,
    })?;
    let mut plans = Vec::new(alloc);
    plans.push(Plan {
        head: STREAMS,
        body: b"",
        hold: Hold::Nothing,
        after: 0,
    })?;
    let came = watched(alloc, &rt, pauses, 0, plans)?;
    assert!(rt; came.served == Some(2) && came.dials == 1 && came.owed == Some(0));
    assert!(rt; has_texts(came.written.as_slice(), "200 OK", r#""made":1,"owed":0"#));
    Ok(())
}

#[test]
fn a_stream_that_is_late_waits(rt: HostRuntime) -> Result<(), Fail> {
    let alloc = rt.alloc();
    let mut pauses = Vec::new(alloc);
    pauses.push(Pause {
        after: 1,
        seconds: 0,
    })?;
    pauses.push(Pause {
        after: 1,
        seconds: 29,
    })?;
    let came = watched(alloc, &rt, pauses, u64::MAX, Vec::new(alloc))?;
    assert!(rt; came.served == Some(1) && came.dials == 1 && came.owed == Some(1));
    Ok(())
}

#[test]
fn a_stream_that_was_late_is_tried_once_it_is_due(rt: HostRuntime) -> Result<(), Fail> {
    let alloc = rt.alloc();
    let mut pauses = Vec::new(alloc);
    pauses.push(Pause {
        after: 2,
        seconds: 0,
    })?;
    pauses.push(Pause {
        after: 1,
        seconds: 30,
    })?;
    let came = watched(alloc, &rt, pauses, 1, Vec::new(alloc))?;
    assert!(rt; came.served == Some(2) && came.dials == 2 && came.owed == Some(0));
    Ok(())
}
