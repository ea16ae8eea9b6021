ghost use Rattle.std.specs.Prelude.{◌≡◌, ◌⊎◌, ℕ, ◌+◌, ◌-◌, ◌^◌, ◌≤◌, List, [], ◌∷◌, ◌++◌, length, take, drop, min, Bool, true, false, Option, Some, None, IfOk, OnOk, OnErr, IsTrue, is_ok};
ghost use Rattle.std.specs.Io.{ReadsAtMost};
ghost use Rattle.sig_outside.specs.Causes.{HasCause};
ghost use Rattle.sig_outside.specs.Disk as disk;
ghost use Rattle.sig_outside.specs.Disk.{Elapses, Follows, Only, ReadsAt, Torn, Unchanged, Uses, rests_cut, rests_synced, rests_written, with_bytes};
ghost use Rattle.sig_outside.specs.DiskCalls.{content, resting};
ghost use Rattle.sig_outside.specs.KeptDisk.{Looks, Makes, began, bytes_now, ended, failed, left_since, may_go, may_leave, rest_of, seen, starved, stop_of, tells_stop, with_calls};
ghost use Rattle.sig_outside.specs.declared.disk_call.DiskCall.{DiskCall};
ghost use Rattle.sig_outside.specs.DiskLaws.{counts_kept, only_kept, reads_kept, rests_kept};

use crate::disk_call::{DiskCall, Standstill};
use crate::{Disk, Failed};
use sig_json::{Bytes, Items, Memory};
use std::alloc::Global;
use std::marker::Model;

/// A disk in memory. It tells its file, keeps each call made of it, and stands still where it is asked to.
///
/// A call that is refused memory fails, and the disk is short from then on.
#[derive(Drop)]
pub struct MemDisk {
    alloc: Global,
    first: Bytes,
    changed: Option<Vec<u8>>,
    calls: Vec<DiskCall>,
    failing: Items<u64>,
    made: u64,
    faults: u64,
    short: bool,
    stop: Option<Standstill>,
}

impl Model for MemDisk {
    ghost use Rattle.std.specs.Prelude.{◌≡◌};
    ghost use Rattle.sig_outside.specs.DiskCalls.{content};
    ghost use Rattle.sig_outside.specs.KeptDisk.{Kept, bytes_now};

    ghost Value = { Kept };

    ghost view = { λ d. record { first = d.first; calls = d.calls.items; failing = d.failing; made = d.made; faults = d.faults; short = d.short; stop = d.stop } };

    // What was made of the first bytes is kept beside them.
    ghost invariant = { λ d. bytes_now d.first d.changed ≡ content d.first d.calls.items };
}

impl MemDisk {
    ghost use Rattle.sig_outside.specs.declared.disk_call.DiskCall.TheVariants.{Wrote, Cut, Synced};

    /// A file with these bytes, all of them synced, and the numbers, from 0, of the calls that are to fail. A disk with such
    /// calls doesn't tell its stop. It grows with this allocator.
    pub fn new(alloc: Global, bytes: Bytes, failing: Items<u64>) -> MemDisk
        ensures { result ≡ record { first = bytes; calls = []; failing = failing; made = 0; faults = 0; short = false; stop = None } }
    {
        MemDisk {
            alloc,
            first: bytes,
            changed: None,
            calls: Vec::new(alloc),
            failing,
            made: 0,
            faults: 0,
            short: false,
            stop: None,
        }
    }

    /// Whether it was ever refused memory.
    pub fn short(&self) -> bool
        ensures { result ≡ self.now.short }
    {
        self.short
    }

    /// What it rests with, or what reads give where no stop was set.
    pub fn image(&self) -> Result<Bytes, Memory>
        ensures { IfOk result (λ image. image ≡ rest_of self.now.stop self.now.first self.now.calls) }
    {
        match self.stop {
            None => Bytes::of(self.alloc, self.bytes()),
            Some(still) => {
                let calls = self.calls.as_slice();
                let image = rest_with(self.alloc, self.first.as_slice(), calls, still.fill)?;
                Ok(Bytes::from_vec(image))
            }
        }
    }

    // What reads give.
    fn bytes(&self) -> &[u8]
        ensures { result.now ≡ seen self.now }
    {
        match &self.changed {
            Some(changed) => changed.as_slice(),
            None => self.first.as_slice(),
        }
    }

    // Gives the call its number, and fails where it is to fail or a stop stands before it.
    fn begin(&mut self) -> Result<(), Failed>
        ensures ok { OnOk result ((may_go self.old ≡ true) × (self.new ≡ began self.old)) }
        ensures err { OnErr result ((may_go self.old ≡ false) × (self.new ≡ failed (began self.old))) }
        ensures counts { self.old.faults ≤ self.new.faults }
    {
        let fails = self.failing.as_slice().contains(&self.made);
        let stands = match self.stop {
            Some(still) => still.calls == 0,
            None => false,
        };
        self.made = self.made.saturating_add(1);
        if fails || stands {
            self.faults = self.faults.saturating_add(1);
            return Err(Failed);
        }
        Ok(())
    }

    // Uses one of the calls before a stop.
    fn use_call(&mut self)
        ensures { self.new ≡ ended self.old }
    {
        if let Some(still) = self.stop {
            self.stop = Some(Standstill {
                calls: still.calls.saturating_sub(1),
                fill: still.fill,
            });
        }
    }

    // Ends a call that was made, or refused memory.
    fn end(&mut self, done: Result<(), Memory>) -> Result<(), Failed>
        ensures ok { OnOk result (OnOk done (self.new ≡ ended self.old)) }
        ensures err { OnErr result (OnErr done (self.new ≡ failed (starved self.old))) }
        ensures same { is_ok result ≡ is_ok done }
        ensures counts { self.old.faults ≤ self.new.faults }
    {
        if done.is_err() {
            self.short = true;
            self.faults = self.faults.saturating_add(1);
            return Err(Failed);
        }
        self.use_call();
        Ok(())
    }

    fn write(&mut self, at: u64, bytes: &[u8]) -> Result<(), Memory>
        ensures ok { OnOk result (self.new ≡ with_calls (Wrote at bytes.now ∷ []) self.old) }
        ensures err { OnErr result (self.new ≡ self.old) }
    {
        let call = DiskCall::Wrote {
            at,
            bytes: Bytes::of(self.alloc, bytes)?,
        };
        self.calls.reserve(1)?;
        write_bytes(
            self.alloc,
            self.first.as_slice(),
            &mut self.changed,
            at,
            bytes,
        )?;
        if self.calls.push(call).is_err() {
            // There is room for it.
            unreachable!();
        }
        Ok(())
    }

    fn shorten(&mut self, size: u64) -> Result<(), Memory>
        ensures ok { OnOk result (self.new ≡ with_calls (Cut size ∷ []) self.old) }
        ensures err { OnErr result (self.new ≡ self.old) }
    {
        self.calls.reserve(1)?;
        cut_bytes(self.alloc, self.first.as_slice(), &mut self.changed, size)?;
        if self.calls.push(DiskCall::Cut { size }).is_err() {
            // There is room for it.
            unreachable!();
        }
        Ok(())
    }

    fn keep(&mut self) -> Result<(), Memory>
        ensures ok { OnOk result (self.new ≡ with_calls (Synced ∷ []) self.old) }
        ensures err { OnErr result (self.new ≡ self.old) }
    {
        self.calls.push(DiskCall::Synced)?;
        Ok(())
    }

    fn size_call(&mut self) -> Result<u64, Failed>
        ensures looks { Looks self.old self.new result }
        ensures counts { self.old.faults ≤ self.new.faults }
        ensures size { IfOk result (λ n. n ≡ length (seen self.old)) }
    {
        self.begin()?;
        self.use_call();
        Ok(self.bytes().len() as u64)
    }

    fn read_call(&mut self, at: u64, buf: &mut [u8]) -> Result<usize, Failed>
        ensures looks { Looks self.old self.new result }
        ensures counts { self.old.faults ≤ self.new.faults }
        ensures bound { ReadsAtMost result buf.new }
        ensures bytes { IfOk result (λ n. ReadsAt (seen self.old) at n buf.new) }
    {
        self.begin()?;
        self.use_call();
        Ok(copy_from(self.bytes(), at, buf))
    }

    fn write_call(&mut self, at: u64, bytes: &[u8]) -> Result<(), Failed>
        ensures makes { Makes (Wrote at bytes.now ∷ []) self.old self.new result }
        ensures counts { self.old.faults ≤ self.new.faults }
    {
        self.begin()?;
        let done = self.write(at, bytes);
        self.end(done)
    }

    fn cut_call(&mut self, size: u64) -> Result<(), Failed>
        ensures makes { Makes (Cut size ∷ []) self.old self.new result }
        ensures counts { self.old.faults ≤ self.new.faults }
    {
        self.begin()?;
        let done = self.shorten(size);
        self.end(done)
    }

    fn sync_call(&mut self) -> Result<(), Failed>
        ensures makes { Makes (Synced ∷ []) self.old self.new result }
        ensures counts { self.old.faults ≤ self.new.faults }
    {
        self.begin()?;
        let done = self.keep();
        self.end(done)
    }
}

impl Disk for MemDisk {
    ghost use Rattle.sig_outside.specs.declared.disk_call.DiskCall.TheVariants.{Wrote, Cut, Synced};

    ghost told = { λ d. true };

    ghost seen = { seen };

    ghost may_leave = { may_leave };

    ghost moment = { λ d. length d.calls };

    ghost left_since = { left_since };

    ghost faults = { λ d. d.faults };

    ghost stops = { λ d. tells_stop d.failing };

    ghost stop = { stop_of };

    ghost short = { λ d. d.short };

    ghost reads_now = { λ d told. reads_kept d };

    ghost rests = { rests_kept };

    ghost counts_now = { counts_kept };

    ghost only_now = { only_kept };

    fn size(&mut self) -> Result<u64, Failed>
        ensures looks { Looks self.old self.new result }
        ensures size { IfOk result (λ n. n ≡ length (seen self.old)) }
        ensures cause { HasCause self.old.faults self.new.faults result }
    {
        self.size_call()
    }

    fn read_at(&mut self, at: u64, buf: &mut [u8]) -> Result<usize, Failed>
        ensures looks { Looks self.old self.new result }
        ensures bound { ReadsAtMost result buf.new }
        ensures bytes { IfOk result (λ n. ReadsAt (seen self.old) at n buf.new) }
        ensures cause { HasCause self.old.faults self.new.faults result }
    {
        self.read_call(at, buf)
    }

    fn write_at(&mut self, at: u64, bytes: &[u8]) -> Result<(), Failed>
        ensures makes { Makes (Wrote at bytes.now ∷ []) self.old self.new result }
        ensures written { OnOk result (seen self.new ≡ with_bytes at bytes.now (seen self.old)) }
        ensures images { Follows (Torn at (length bytes.now)) (may_leave self.old) (may_leave self.new) }
        ensures time { Elapses (length self.old.calls) (length self.new.calls) (left_since self.old) (left_since self.new) (may_leave self.new) }
        ensures stop { Uses (rests_written at (length bytes.now)) (seen self.old) (stop_of self.old) (stop_of self.new) self.new.short result }
        ensures cause { HasCause self.old.faults self.new.faults result }
    {
        self.write_call(at, bytes)
    }

    fn cut(&mut self, size: u64) -> Result<(), Failed>
        ensures makes { Makes (Cut size ∷ []) self.old self.new result }
        ensures cut { OnOk result (seen self.new ≡ take size (seen self.old)) }
        ensures images { Follows (disk.Cut size) (may_leave self.old) (may_leave self.new) }
        ensures time { Elapses (length self.old.calls) (length self.new.calls) (left_since self.old) (left_since self.new) (may_leave self.new) }
        ensures stop { Uses (rests_cut size) (seen self.old) (stop_of self.old) (stop_of self.new) self.new.short result }
        ensures cause { HasCause self.old.faults self.new.faults result }
    {
        self.cut_call(size)
    }

    fn sync(&mut self) -> Result<(), Failed>
        ensures makes { Makes (Synced ∷ []) self.old self.new result }
        ensures durable { OnOk result (Only (seen self.old) (may_leave self.new)) }
        ensures seen { seen self.new ≡ seen self.old }
        ensures images { Unchanged (may_leave self.old) (may_leave self.new) }
        ensures time { Elapses (length self.old.calls) (length self.new.calls) (left_since self.old) (left_since self.new) (may_leave self.new) }
        ensures stop { Uses rests_synced (seen self.old) (stop_of self.old) (stop_of self.new) self.new.short result }
        ensures cause { HasCause self.old.faults self.new.faults result }
    {
        self.sync_call()
    }

    fn stop_after(&mut self, calls: u64, fill: u8)
        ensures { self.new ≡ record self.old { stop = Some (record { calls = calls; fill = fill }) } }
    {
        self.stop = Some(Standstill { calls, fill });
    }
}

// Writes into the bytes as they were changed, which before any change are the first ones.
fn write_bytes(
    alloc: Global,
    first: &[u8],
    changed: &mut Option<Vec<u8>>,
    at: u64,
    bytes: &[u8],
) -> Result<(), Memory>
    ensures ok { OnOk result (bytes_now first.now changed.new ≡ with_bytes at bytes.now (bytes_now first.now changed.old)) }
    ensures err { OnErr result (bytes_now first.now changed.new ≡ bytes_now first.now changed.old) }
{
    match changed {
        Some(held) => put_at(held, at, bytes),
        None => {
            let mut held = Vec::from_slice(alloc, first)?;
            put_at(&mut held, at, bytes)?;
            *changed = Some(held);
            Ok(())
        }
    }
}

fn cut_bytes(
    alloc: Global,
    first: &[u8],
    changed: &mut Option<Vec<u8>>,
    size: u64,
) -> Result<(), Memory>
    ensures ok { OnOk result (bytes_now first.now changed.new ≡ take size (bytes_now first.now changed.old)) }
    ensures err { OnErr result (bytes_now first.now changed.new ≡ bytes_now first.now changed.old) }
{
    match changed {
        Some(held) => held.truncate(size as usize),
        None => {
            let mut held = Vec::from_slice(alloc, first)?;
            held.truncate(size as usize);
            *changed = Some(held);
        }
    }
    Ok(())
}

// What a file with these bytes rests with after these calls, where each byte written since the last sync is the fill.
fn rest_with(alloc: Global, first: &[u8], calls: &[DiskCall], fill: u8) -> Result<Vec<u8>, Memory>
    ensures { IfOk result (λ image. image.items ≡ resting fill first.now first.now calls.now) }
{
    let mut seen = Vec::from_slice(alloc, first)?;
    let mut image = Vec::from_slice(alloc, first)?;
    for call in calls {
        rest_after(alloc, &mut seen, &mut image, call, fill)?;
    }
    Ok(image)
}

// The file and what it rests with after one call more.
fn rest_after(
    alloc: Global,
    seen: &mut Vec<u8>,
    image: &mut Vec<u8>,
    call: &DiskCall,
    fill: u8,
) -> Result<(), Memory>
    ensures { OnOk result ((calls : List DiskCall) → resting fill seen.new.items image.new.items calls ≡ resting fill seen.old.items image.old.items (call.now ∷ calls)) }
{
    match call {
        DiskCall::Wrote { at, bytes } => {
            put_at(seen, *at, bytes.as_slice())?;
            let filled = vec![in alloc; fill; bytes.as_slice().len()]?;
            put_at(image, *at, filled.as_slice())
        }
        DiskCall::Cut { size } => {
            seen.truncate(*size as usize);
            image.truncate(*size as usize);
            Ok(())
        }
        DiskCall::Synced => {
            image.clear();
            image.extend_from_slice(seen.as_slice())?;
            Ok(())
        }
    }
}

// Writes bytes at an offset, and zeros into a gap before it.
fn put_at(held: &mut Vec<u8>, at: u64, bytes: &[u8]) -> Result<(), Memory>
    ensures ok { OnOk result (held.new.items ≡ with_bytes at bytes.now held.old.items) }
    ensures err { OnErr result (held.new.items ≡ held.old.items) }
{
    let start = at as usize;
    let Some(end) = start.checked_add(bytes.len()) else {
        return Err(Memory);
    };
    held.resize(held.len().max(end), 0)?;
    overwrite(held.as_mut_slice(), start, bytes);
    Ok(())
}

fn overwrite(held: &mut [u8], start: usize, bytes: &[u8])
    requires { start + length bytes.now ≤ length held.old }
    ensures { held.new ≡ take start held.old ++ bytes.now ++ drop (start + length bytes.now) held.old }
{
    let (_, rest) = held.split_at_mut(start);
    let (place, _) = rest.split_at_mut(bytes.len());
    place.copy_from_slice(bytes);
}

// Copies the bytes from an offset on into the front of the buffer, as many as fit.
fn copy_from(bytes: &[u8], at: u64, buf: &mut [u8]) -> usize
    ensures bound { result ≤ length buf.new }
    ensures bytes { ReadsAt bytes.now at result buf.new }
{
    let start = at as usize;
    if bytes.len() < start {
        return 0;
    }
    let rest = bytes.split_at(start).1;
    let count = buf.len().min(rest.len());
    let (front, _) = buf.split_at_mut(count);
    front.copy_from_slice(rest.split_at(count).0);
    count
}
