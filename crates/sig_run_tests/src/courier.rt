//! `courier` tries a late push again once it is due, and no more once it was good (RFC 8935, section
//! 2.4).

use crate::store::owing_store;
use sig_json::{Bytes, Items, Memory, Text};
use sig_memory_links::{MemLink, MemOutside, MemSide, NamedSource};
use sig_outside::{MemSink, MemSource};
use sig_ticking::{CourierEnd, courier};
use std::alloc::Global;
use std::sync::Wait;
use std::test::Fail;

const SETTINGS: &[u8] =
    br#"{"issuer":"https://idp.example","base":"http://tx.example","listen":"127.0.0.1:8080","operator":"op","default_subjects":"ALL","min_verification_interval":60,"key":{"k":"MDEyMzQ1Njc4OWFiY2RlZjAxMjM0NTY3ODlhYmNkZWY","kid":"k1"},"clients":[{"aud":["https://rp.example"],"bearer":"acme-1","name":"acme"}]}"#;

const ACCEPTED: &[u8] = b"HTTP/1.1 202 Accepted\r\ncontent-length: 0\r\n\r\n";

// When the ticks come, one a line.
const TICKS: [u64; 5] = [100, 110, 130, 189, 190];

fn ticks(alloc: Global) -> Result<Items<u64>, Memory> {
    let mut times = Vec::new(alloc);
    for time in TICKS {
        times.push(time)?;
    }
    Ok(Items::of(times))
}

// A side of which the first dial fails, and each later one that finds no link.
fn side(alloc: Global, answers: &[&[u8]]) -> Result<MemSide, Memory> {
    let mut links = Vec::new(alloc);
    for answer in answers {
        let none = Items::of(Vec::new(alloc));
        links.push(MemLink::new(alloc, Bytes::of(alloc, answer)?, none))?;
    }
    let mut failing = Vec::new(alloc);
    failing.push(0)?;
    Ok(MemSide::new(alloc, Items::of(links), ticks(alloc)?, Items::of(failing)))
}

fn settings(alloc: Global) -> Result<Items<NamedSource>, Memory> {
    let none = Items::of(Vec::new(alloc));
    let mut settings = Vec::new(alloc);
    settings.push(NamedSource {
        name: Text::of(alloc, "tx.json")?,
        source: MemSource::new(Bytes::of(alloc, SETTINGS)?, none),
    })?;
    Ok(Items::of(settings))
}

fn outside(alloc: Global, answers: &[&[u8]]) -> Result<MemOutside, Memory> {
    let doors = Items::of(Vec::new(alloc));
    let failing = Items::of(Vec::new(alloc));
    let mut sides = Vec::new(alloc);
    sides.push(side(alloc, answers)?)?;
    let sides = Items::of(sides);
    Ok(MemOutside::new(
        alloc,
        settings(alloc)?,
        owing_store(alloc)?,
        doors,
        sides,
        failing,
    ))
}

// What is printed for the five ticks, by a run that came to the end of its input.
fn printed<R: Wait>(alloc: Global, rt: &R, answers: &[&[u8]]) -> Result<Option<MemSink>, Memory> {
    let mut outside = outside(alloc, answers)?;
    let none = Items::of(Vec::new(alloc));
    let mut input = MemSource::new(Bytes::of(alloc, b"\n\n\n\n\n")?, none);
    let mut output = MemSink::new(alloc, Items::of(Vec::new(alloc)));
    match courier(
        alloc,
        rt,
        "tx.json",
        "tx",
        &mut input,
        &mut output,
        &mut outside,
    ) {
        CourierEnd::Done => Ok(Some(output)),
        _ => Ok(None),
    }
}

fn prints<R: Wait>(alloc: Global, rt: &R, answers: &[&[u8]], lines: &[u8]) -> Result<bool, Memory> {
    Ok(printed(alloc, rt, answers)?.is_some_and(|output| output.bytes() == lines))
}

#[test]
fn a_late_push_is_tried_once_it_is_due(rt: HostRuntime) -> Result<(), Fail> {
    let lines = b"1 acme-1 1 late\n3 acme-1 1 late\n5 acme-1 1 late\n";
    assert!(rt; prints(rt.alloc(), &rt, &[], lines)?);
    Ok(())
}

#[test]
fn a_push_that_was_good_is_tried_no_more(rt: HostRuntime) -> Result<(), Fail> {
    let lines = b"1 acme-1 1 late\n3 acme-1 1 good\n";
    assert!(rt; prints(rt.alloc(), &rt, &[ACCEPTED], lines)?);
    Ok(())
}
