//! The strays of a tree.

ghost use Rattle.std.specs.Prelude.{◌≡◌, ◌++◌, [], IfOk, OnOk};
ghost use Rattle.json.specs.Strict.{keys};
ghost use Rattle.json.specs.Value.{items_view, members_view, value_view};
ghost use Rattle.sig_stray.specs.Strays as spec;

use crate::{Holds, ObjectKind, Stray, StrayKind};
use json::Value;
use sig_json::{Items, Memory, Text};
use sig_settings::Step;
use std::alloc::Global;

/// The strays of what a member holds.
#[cycle(strays)]
pub fn held_strays(alloc: Global, holds: Holds, value: &Value<'_>) -> Result<Vec<Stray>, Memory>
    ensures { IfOk result (λ strays. strays.items ≡ spec.held_strays holds (value_view value.now)) }
{
    match (holds, value) {
        (Holds::Object(kind), Value::Object(members)) => {
            member_strays(alloc, kind, members.as_slice())
        }
        (Holds::List(kind), Value::Array(items)) => item_strays(alloc, kind, items.as_slice()),
        _ => Ok(Vec::new(alloc)),
    }
}

#[cycle(strays)]
fn item_strays(alloc: Global, kind: ObjectKind, items: &[Value<'_>]) -> Result<Vec<Stray>, Memory>
    ensures { IfOk result (λ strays. strays.items ≡ spec.item_strays kind 0 (items_view items.now)) }
{
    let mut all = Vec::new(alloc);
    for i in 0..items.len() {
        let strays = held_strays(alloc, Holds::Object(kind), &items[i])?;
        add_under(alloc, &mut all, &Step::Place(i), strays)?;
    }
    Ok(all)
}

#[cycle(strays)]
fn member_strays(
    alloc: Global,
    kind: ObjectKind,
    members: &[(&str, Value<'_>)],
) -> Result<Vec<Stray>, Memory>
    ensures { IfOk result (λ strays. strays.items ≡ spec.member_strays kind [] (members_view members.now)) }
{
    let mut all = Vec::new(alloc);
    for i in 0..members.len() {
        let member = &members[i];
        let again = is_named(member.0, &members[..i]);
        let strays = known_strays(alloc, kind.holds(member.0), again, &member.1)?;
        let step = Step::Member(Text::of(alloc, member.0)?);
        add_under(alloc, &mut all, &step, strays)?;
    }
    Ok(all)
}

// The strays of a member, by what it holds where it is known, and whether it stands there again.
#[cycle(strays)]
fn known_strays(
    alloc: Global,
    holds: Option<Holds>,
    again: bool,
    value: &Value<'_>,
) -> Result<Vec<Stray>, Memory>
    ensures { IfOk result (λ strays. strays.items ≡ spec.known_strays holds again (λ h. spec.held_strays h (value_view value.now))) }
{
    match holds {
        Some(holds) => {
            let mut all = strays_if(alloc, again, StrayKind::Twice)?;
            let mut inner = held_strays(alloc, holds, value)?;
            all.append(&mut inner)?;
            Ok(all)
        }
        None => strays_if(alloc, true, StrayKind::Unknown),
    }
}

// Whether one of the members has this name.
fn is_named(name: &str, members: &[(&str, Value<'_>)]) -> bool
    ensures { result ≡ spec.is_named name.now (keys (members_view members.now)) }
{
    for member in members {
        if member.0 == name {
            return true;
        }
    }
    false
}

// The value itself, where it is stray.
fn strays_if(alloc: Global, is: bool, kind: StrayKind) -> Result<Vec<Stray>, Memory>
    ensures { IfOk result (λ strays. strays.items ≡ spec.strays_if is kind) }
{
    let mut all = Vec::new(alloc);
    if is {
        let path = Items::of(Vec::new(alloc));
        all.push(Stray { kind, path })?;
    }
    Ok(all)
}

// Puts the strays of the value at a step last.
fn add_under(
    alloc: Global,
    all: &mut Vec<Stray>,
    step: &Step,
    strays: Vec<Stray>,
) -> Result<(), Memory>
    ensures { OnOk result (all.new.items ≡ all.old.items ++ spec.under step.now strays.items) }
{
    for stray in strays {
        all.push(deeper(alloc, step, stray)?)?;
    }
    Ok(())
}

fn deeper(alloc: Global, step: &Step, stray: Stray) -> Result<Stray, Memory>
    ensures { IfOk result (λ deeper. deeper ≡ spec.deeper step.now stray) }
{
    let Stray { kind, path } = stray;
    let mut path = path.into_vec();
    path.insert(0, copied(alloc, step)?)?;
    Ok(Stray {
        kind,
        path: Items::of(path),
    })
}

fn copied(alloc: Global, step: &Step) -> Result<Step, Memory>
    ensures { IfOk result (λ copy. copy ≡ step.now) }
{
    match step {
        Step::Member(name) => Ok(Step::Member(name.copy(alloc)?)),
        Step::Place(place) => Ok(Step::Place(*place)),
    }
}
