//! The exchange with a transmitter, from its list to the last step.

ghost use Rattle.std.specs.Prelude.{◌≡◌, IfOk, OnErr};
ghost use Rattle.std.specs.Option.{option_copied};
ghost use Rattle.sig_json.specs.Answers.{Answers, result_map};
ghost use Rattle.sig_manager.specs.Exchange as spec;

use crate::asking::{list_request, request_of};
use crate::hearing::further_of;
use crate::listing::listed_in;
use crate::planning::{put_step, steps_of};
use crate::{ManageFault, Step};
use sig_declared::Declared;
use sig_http::{Request, Response};
use sig_json::{Items, Memory};
use std::alloc::Global;
use std::collections::VecDeque;
use std::marker::Model;

/// An exchange that brings a client's streams to what is declared: what it asks next, and what it hears.
///
/// Contracts see what is declared, and the steps that are left, which are known once the streams are listed.
pub struct Manager {
    declared: Items<Declared>,
    steps: Option<VecDeque<Step>>,
}

impl Drop for Manager {
    fn drop(self) {
        let Manager { declared, steps } = self;
        drop(declared);
        drop(steps);
    }
}

impl Model for Manager {
    ghost use Rattle.std.specs.Option.{option_map};
    ghost use Rattle.sig_manager.specs.Exchange.{Managed};

    ghost Value = { Managed };

    ghost view = { λ m. record { declared = m.declared; steps = option_map (λ s. s.items) m.steps } };
}

impl Manager {
    /// Before the first request. It takes no memory.
    pub fn new(declared: Items<Declared>) -> Manager
        ensures { result ≡ spec.begun declared }
    {
        Manager {
            declared,
            steps: None,
        }
    }

    /// The step that is asked next: none before the streams are listed, and none where all is done.
    pub fn step(&self) -> Option<&Step>
        ensures { option_copied result ≡ spec.step_of self.now }
    {
        self.steps.as_ref()?.front()
    }

    /// The request that is made next, without a bearer; none exactly where nothing is left to ask. Out of memory is the only
    /// error.
    pub fn next(&self, alloc: Global) -> Result<Option<Request>, Memory>
        ensures { IfOk result (λ request. request ≡ spec.next_of self.now) }
    {
        let Some(steps) = &self.steps else {
            return Ok(Some(list_request(alloc)?));
        };
        match steps.front() {
            Some(step) => Ok(Some(request_of(alloc, step)?)),
            None => Ok(None),
        }
    }

    /// Takes the response to that request. `Peer` says where it isn't what the standard has for it. After a fault what is left
    /// to ask is as before, and so it is where nothing was asked.
    pub fn hear(&mut self, alloc: Global, response: &Response) -> Result<(), ManageFault>
        ensures heard { Answers ManageFault.Memory (result_map (λ _. self.new) result) (spec.heard self.old response.now) }
        ensures err { OnErr result (self.new ≡ self.old) }
    {
        match &mut self.steps {
            None => {
                let listed = listed_in(alloc, response)?;
                let steps = steps_of(alloc, self.declared.as_slice(), listed.as_slice())?;
                self.steps = Some(steps);
            }
            Some(steps) => answered(alloc, steps, response)?,
        }
        Ok(())
    }
}

// The first step is answered: it is done, and one that the answer shows to be necessary comes last.
fn answered(
    alloc: Global,
    steps: &mut VecDeque<Step>,
    response: &Response,
) -> Result<(), ManageFault>
    ensures heard { Answers ManageFault.Memory (result_map (λ _. steps.new.items) result)
        (spec.answered steps.old.items response.now) }
    ensures err { OnErr result (steps.new.items ≡ steps.old.items) }
{
    let Some(step) = steps.front() else {
        return Ok(());
    };
    let further = further_of(alloc, step, response)?;
    put_step(steps, further)?;
    steps.pop_front();
    Ok(())
}
