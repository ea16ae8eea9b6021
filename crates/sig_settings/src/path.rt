//! Where a fault stands in settings.

ghost use Rattle.std.specs.Prelude.{◌≡◌, ◌⊎◌, ◌++◌, IfOk, OnOk, Err, string_bytes};
ghost use Rattle.sig_settings.specs.Members as spec;
ghost use Rattle.sig_settings.specs.Paths.{first_text, path_text, step_text, steps_text};

use crate::{SettingsFault, ValueFault};
use sig_json::{Items, Memory, Text};
use std::alloc::Global;

/// A step from a value of settings to one inside it.
#[derive(Debug, Drop)]
pub enum Step {
    /// To an object's member of this name.
    Member(Text),
    /// To a list's item at this place from 0.
    Place(usize),
}

/// The fault of a value that is missing or wrong itself.
pub fn itself(alloc: Global) -> ValueFault
    ensures { result ≡ spec.itself }
{
    ValueFault::Wrong(Items::of(Vec::new(alloc)))
}

/// What was found of a value; the value itself is wrong where nothing was.
pub fn found<T>(alloc: Global, found: Option<T>) -> Result<T, ValueFault>
    ensures { result ≡ spec.found found }
{
    match found {
        Some(kept) => Ok(kept),
        None => Err(itself(alloc)),
    }
}

/// A fault of the member of this name, seen from its object.
pub fn in_member(alloc: Global, name: &str, fault: ValueFault) -> ValueFault
    ensures { (result ≡ ValueFault.Memory) ⊎ (result ≡ spec.deeper (Step.Member name.now) fault) }
{
    match Text::of(alloc, name) {
        Ok(name) => deeper(Step::Member(name), fault),
        Err(Memory) => ValueFault::Memory,
    }
}

/// A fault of the item at this place, seen from its list.
pub fn deeper(step: Step, fault: ValueFault) -> ValueFault
    ensures { (result ≡ ValueFault.Memory) ⊎ (result ≡ spec.deeper step fault) }
{
    match fault {
        ValueFault::Wrong(path) => longer(step, path.into_vec()),
        ValueFault::Memory => ValueFault::Memory,
    }
}

fn longer(step: Step, path: Vec<Step>) -> ValueFault
    ensures { (result ≡ ValueFault.Memory) ⊎ (result ≡ spec.deeper step (ValueFault.Wrong path.items)) }
{
    let mut path = path;
    match path.insert(0, step) {
        Ok(()) => ValueFault::Wrong(Items::of(path)),
        Err(_) => ValueFault::Memory,
    }
}

/// A fault of the settings as a whole, with the text of its path.
pub fn told(alloc: Global, fault: ValueFault) -> SettingsFault
    ensures { (result ≡ SettingsFault.Memory) ⊎ (result ≡ spec.told_of fault) }
{
    match fault {
        ValueFault::Wrong(path) => match path_text(alloc, path.as_slice()) {
            Ok(text) => SettingsFault::Refused(Text::from_string(text)),
            Err(Memory) => SettingsFault::Memory,
        },
        ValueFault::Memory => SettingsFault::Memory,
    }
}

// The text of a path, as `issuers[1].keys[0].k`.
fn path_text(alloc: Global, path: &[Step]) -> Result<String, Memory>
    ensures { IfOk result (λ text. string_bytes text ≡ path_text path.now) }
{
    let mut text = String::new(alloc);
    if let [first, rest @ ..] = path {
        add_first(alloc, &mut text, first)?;
        add_steps(alloc, &mut text, rest)?;
    }
    Ok(text)
}

fn add_first(alloc: Global, text: &mut String, step: &Step) -> Result<(), Memory>
    ensures { OnOk result (string_bytes text.new ≡ string_bytes text.old ++ first_text step.now) }
{
    match step {
        Step::Member(name) => Ok(text.push_str(name.as_str())?),
        step => add_step(alloc, text, step),
    }
}

fn add_steps(alloc: Global, text: &mut String, steps: &[Step]) -> Result<(), Memory>
    ensures { OnOk result (string_bytes text.new ≡ string_bytes text.old ++ steps_text steps.now) }
{
    for step in steps {
        add_step(alloc, text, step)?;
    }
    Ok(())
}

fn add_step(alloc: Global, text: &mut String, step: &Step) -> Result<(), Memory>
    ensures { OnOk result (string_bytes text.new ≡ string_bytes text.old ++ step_text step.now) }
{
    match step {
        Step::Member(name) => {
            text.push_str(".")?;
            text.push_str(name.as_str())?;
        }
        Step::Place(place) => {
            let place = format!(in alloc; "[{place}]")?;
            text.push_str(place.as_str())?;
        }
    }
    Ok(())
}
