//! Copies of what nodes keep and are made by, which no program makes.

use crate::receiver::rules;
use sig_inbox::Seen;
use sig_json::{Memory, Same, Text};
use sig_rxnode::{RxAnswer, RxCall, RxState, RxTurn};
use sig_sessions::Table;
use sig_terms::Call;
use sig_txnode::{Turn, TxFault};
use std::alloc::Global;
use std::test::Fail;

fn is_turn_copied(alloc: Global) -> Result<bool, Memory> {
    let client = Text::of(alloc, "acme")?;
    let turn = Turn {
        link: 7,
        call: Call::ReadAll { client },
        now: 1,
        result: Err(TxFault::Store),
    };
    Ok(turn.copy(alloc)?.same(&turn))
}

fn is_receivers_turn_copied(alloc: Global) -> Result<bool, Memory> {
    let turn = RxTurn {
        link: 7,
        call: RxCall::Rows { from: 1 },
        result: Ok(RxAnswer::Accepted),
    };
    Ok(turn.copy(alloc)?.same(&turn))
}

#[test]
fn turns_are_copied(rt: HostRuntime) -> Result<(), Fail> {
    assert!(rt; is_turn_copied(rt.alloc())?);
    assert!(rt; is_receivers_turn_copied(rt.alloc())?);
    Ok(())
}

// Settings with a principal and a peer, who are copied too.
fn are_rules_copied(alloc: Global) -> Result<bool, Memory> {
    let rules = rules(alloc)?;
    Ok(rules.copy(alloc)?.same(&rules))
}

fn is_state_copied(alloc: Global) -> Result<bool, Memory> {
    let state = RxState {
        seen: Seen::new(alloc),
        table: Table::new(alloc),
    };
    let copy = state.copy()?;
    Ok(copy.seen == state.seen && copy.table == state.table)
}

#[test]
fn settings_and_the_state_of_a_receiver_are_copied(rt: HostRuntime) -> Result<(), Fail> {
    assert!(rt; are_rules_copied(rt.alloc())?);
    assert!(rt; is_state_copied(rt.alloc())?);
    Ok(())
}
