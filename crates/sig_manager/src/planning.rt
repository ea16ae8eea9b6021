//! What is asked so that the streams become those that are declared.

ghost use Rattle.std.specs.Prelude.{◌≡◌, ◌++◌, IfOk, OnErr, OnOk, option_to_list};
ghost use Rattle.std.specs.List.{list_any};
ghost use Rattle.std.specs.Option.{option_copied};
ghost use Rattle.sig_manager.specs.Planning as spec;

use crate::{Listed, Step};
use sig_declared::Declared;
use sig_json::{Memory, Text};
use sig_terms::{Delivery, Want};
use std::alloc::Global;
use std::collections::VecDeque;

/// All steps once the streams are listed: statuses, then what is deleted, replaced and created.
pub fn steps_of(
    alloc: Global,
    declared: &[Declared],
    listed: &[Listed],
) -> Result<VecDeque<Step>, Memory>
    ensures { IfOk result (λ steps. steps.items ≡ spec.steps_of declared.now listed.now) }
{
    let mut steps = VecDeque::new(alloc);
    put_statuses(alloc, &mut steps, declared, listed)?;
    put_deletes(alloc, &mut steps, declared, listed)?;
    put_replaces(alloc, &mut steps, declared, listed)?;
    put_creates(alloc, &mut steps, declared, listed)?;
    Ok(steps)
}

/// Puts a step last, where there is one. Where memory runs out the steps are as before.
pub fn put_step(steps: &mut VecDeque<Step>, step: Option<Step>) -> Result<(), Memory>
    ensures put { OnOk result (steps.new.items ≡ steps.old.items ++ option_to_list step) }
    ensures err { OnErr result (steps.new.items ≡ steps.old.items) }
{
    if let Some(step) = step {
        steps.push_back(step)?;
    }
    Ok(())
}

fn put_statuses(
    alloc: Global,
    steps: &mut VecDeque<Step>,
    declared: &[Declared],
    listed: &[Listed],
) -> Result<(), Memory>
    ensures { OnOk result (steps.new.items ≡ steps.old.items ++ spec.statuses_of declared.now listed.now) }
{
    for stream in declared {
        let step = status_for(alloc, listed, stream)?;
        put_step(steps, step)?;
    }
    Ok(())
}

fn put_deletes(
    alloc: Global,
    steps: &mut VecDeque<Step>,
    declared: &[Declared],
    listed: &[Listed],
) -> Result<(), Memory>
    ensures { OnOk result (steps.new.items ≡ steps.old.items ++ spec.deletes_of declared.now listed.now) }
{
    for (i, stream) in listed.iter().enumerate() {
        let step = delete_for(alloc, declared, &listed[..i], stream)?;
        put_step(steps, step)?;
    }
    Ok(())
}

fn put_replaces(
    alloc: Global,
    steps: &mut VecDeque<Step>,
    declared: &[Declared],
    listed: &[Listed],
) -> Result<(), Memory>
    ensures { OnOk result (steps.new.items ≡ steps.old.items ++ spec.replaces_of declared.now listed.now) }
{
    for stream in declared {
        let step = replace_for(alloc, listed, stream)?;
        put_step(steps, step)?;
    }
    Ok(())
}

fn put_creates(
    alloc: Global,
    steps: &mut VecDeque<Step>,
    declared: &[Declared],
    listed: &[Listed],
) -> Result<(), Memory>
    ensures { OnOk result (steps.new.items ≡ steps.old.items ++ spec.creates_of declared.now listed.now) }
{
    for stream in declared {
        let step = create_for(alloc, listed, stream)?;
        put_step(steps, step)?;
    }
    Ok(())
}

fn status_for(alloc: Global, listed: &[Listed], declared: &Declared) -> Result<Option<Step>, Memory>
    ensures { IfOk result (λ step. step ≡ spec.status_for listed.now declared.now) }
{
    let Some(kept) = kept_by(listed, declared) else {
        return Ok(None);
    };
    let stream = kept.id.copy(alloc)?;
    Ok(Some(Step::Status {
        stream,
        wanted: declared.status,
    }))
}

fn delete_for(
    alloc: Global,
    declared: &[Declared],
    before: &[Listed],
    stream: &Listed,
) -> Result<Option<Step>, Memory>
    ensures { IfOk result (λ step. step ≡ spec.delete_for declared.now before.now stream.now) }
{
    if is_kept(declared, before, stream) {
        return Ok(None);
    }
    let stream = stream.id.copy(alloc)?;
    Ok(Some(Step::Delete { stream }))
}

fn replace_for(
    alloc: Global,
    listed: &[Listed],
    declared: &Declared,
) -> Result<Option<Step>, Memory>
    ensures { IfOk result (λ step. step ≡ spec.replace_for listed.now declared.now) }
{
    let Some(kept) = kept_by(listed, declared) else {
        return Ok(None);
    };
    if is_as_declared(&kept.want, &declared.want) {
        return Ok(None);
    }
    let stream = kept.id.copy(alloc)?;
    let want = declared.want.copy(alloc)?;
    Ok(Some(Step::Replace { stream, want }))
}

fn create_for(alloc: Global, listed: &[Listed], declared: &Declared) -> Result<Option<Step>, Memory>
    ensures { IfOk result (λ step. step ≡ spec.create_for listed.now declared.now) }
{
    if kept_by(listed, declared).is_some() {
        return Ok(None);
    }
    let want = declared.want.copy(alloc)?;
    Ok(Some(Step::Create {
        want,
        status: declared.status,
    }))
}

// The stream that a declared one keeps: the first with its description.
fn kept_by<'a>(listed: &'a [Listed], declared: &Declared) -> Option<&'a Listed>
    ensures { option_copied result ≡ spec.kept_by listed.now declared.now }
{
    listed.iter().find(|stream| is_described(declared, stream))
}

// Whether any declared stream keeps this one, which stands behind those.
fn is_kept(declared: &[Declared], before: &[Listed], stream: &Listed) -> bool
    ensures { result ≡ spec.is_kept declared.now before.now stream.now }
{
    declared.iter().any(|one| keeps(before, stream, one))
}

fn keeps(before: &[Listed], stream: &Listed, declared: &Declared) -> bool
    ensures { result ≡ spec.keeps before.now stream.now declared.now }
{
    is_described(declared, stream) && !is_any_described(declared, before)
}

fn is_any_described(declared: &Declared, streams: &[Listed]) -> bool
    ensures { result ≡ list_any (spec.is_described declared.now) streams.now }
{
    streams.iter().any(|stream| is_described(declared, stream))
}

fn is_described(declared: &Declared, stream: &Listed) -> bool
    ensures { result ≡ spec.is_described declared.now stream.now }
{
    match (&stream.description, &declared.want.description) {
        (Some(text), Some(other)) => text == other,
        _ => false,
    }
}

fn is_as_declared(listed: &Option<Want>, declared: &Want) -> bool
    ensures { result ≡ spec.is_as_declared listed.now declared.now }
{
    match listed {
        Some(want) => same_want(want, declared),
        None => false,
    }
}

fn same_want(want: &Want, declared: &Want) -> bool
    ensures { result ≡ spec.same_want want.now declared.now }
{
    want.requested == declared.requested && same_delivery(&want.delivery, &declared.delivery)
}

// Whether tokens reach the receiver in one way, which is by poll where none is given.
fn same_delivery(one: &Option<Delivery>, other: &Option<Delivery>) -> bool
    ensures { result ≡ spec.same_delivery (spec.given one.now) (spec.given other.now) }
{
    match one {
        Some(
            Delivery::Push {
                url,
                authorization,
                ..
            },
        ) => is_push_to(url, authorization, other),
        _ => is_poll(other),
    }
}

fn is_poll(delivery: &Option<Delivery>) -> bool
    ensures { result ≡ spec.is_poll (spec.given delivery.now) }
{
    match delivery {
        Some(Delivery::Push { .. }) => false,
        _ => true,
    }
}

fn is_push_to(url: &Text, authorization: &Option<Text>, delivery: &Option<Delivery>) -> bool
    ensures { result ≡ spec.is_push_to url.now authorization.now (spec.given delivery.now) }
{
    match delivery {
        Some(
            Delivery::Push {
                url: address,
                authorization: shown,
                ..
            },
        ) => url == address && authorization == shown,
        _ => false,
    }
}
