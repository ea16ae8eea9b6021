//! What the system's links do over loopback.

use sig_json::Text;
use sig_links::{Accepted, Door, Link, Outside, Side};
use sig_outside::{Failed, Place, Sink, Source};
use sig_system::{OutsideFault, SystemOutside};
use std::net::TcpListener;
use std::test::Fail;

// A place of this machine where nobody listens.
fn free_place(rt: &HostRuntime) -> Result<Place, Fail> {
    let listener = TcpListener::bind(rt, ("127.0.0.1", 0u16))?;
    Ok(Place {
        host: Text::of(rt.alloc(), "127.0.0.1")?,
        port: listener.local_addr()?.port(),
    })
}

// Whether what is put at one end comes out at the other.
fn is_carried<O: Sink, I: Source>(from: &mut O, to: &mut I, bytes: &[u8]) -> bool {
    let mut buf = [0u8; 8];
    from.put(bytes) == Ok(bytes.len())
        && to.take(&mut buf) == Ok(bytes.len())
        && buf.as_slice().starts_with(bytes)
}

// Whether a question comes to the door and is answered. The link ends with bytes in it that nobody has read.
fn is_served<D: Door, N: Source + Sink>(door: &mut D, near: &mut N) -> bool {
    let Ok(Accepted::Link { mut link, side }) = door.accept() else {
        return false;
    };
    let is_asked = is_carried(near, &mut link, b"asked");
    let is_answered = link.put(b"answered") == Ok(8) && near.put(b"not read") == Ok(8);
    link.finish();
    door.back(link, side);
    is_asked && is_answered
}

// Whether the answer comes, and the end after it.
fn is_answered<N: Source>(near: &mut N) -> bool {
    let mut buf = [0u8; 8];
    near.take(&mut buf) == Ok(8)
        && buf.as_slice() == b"answered".as_slice()
        && near.take(&mut buf) == Ok(0)
}

// Whether a question over a new link is answered.
fn exchanges<D: Door, S: Side>(door: &mut D, side: &mut S, place: &Place) -> Result<bool, Failed> {
    let mut near = side.dial(place)?;
    let is_done = is_served(door, &mut near) && is_answered(&mut near);
    side.back(near);
    Ok(is_done)
}

#[test]
fn the_last_response_is_not_lost_to_a_reset(rt: HostRuntime) -> Result<(), Fail> {
    let place = free_place(&rt)?;
    let mut outside = SystemOutside::new(rt.alloc(), &rt);
    let mut door = outside.door(&place)?;
    let mut side = outside.side();
    assert!(rt; exchanges(&mut door, &mut side, &place)?);
    assert_eq!(rt; side.faults(), 0);
    Ok(())
}

#[test]
fn nobody_answers_at_a_free_place(rt: HostRuntime) -> Result<(), Fail> {
    let place = free_place(&rt)?;
    let mut side = SystemOutside::new(rt.alloc(), &rt).side();
    assert!(rt; side.dial(&place).is_err());
    assert_eq!(rt; side.faults(), 1);
    // It is in the year 2025 or later.
    assert!(rt; side.now() > 1_735_689_600);
    Ok(())
}

#[test]
fn a_place_in_use_is_told(rt: HostRuntime) -> Result<(), Fail> {
    let place = free_place(&rt)?;
    let mut outside = SystemOutside::new(rt.alloc(), &rt);
    let door = outside.door(&place)?;
    assert_eq!(rt; outside.last_fault(), None);
    assert!(rt; outside.door(&place).is_err());
    assert_eq!(rt; outside.last_fault(), Some(OutsideFault::PlaceInUse));
    outside.back_door(door);
    Ok(())
}
