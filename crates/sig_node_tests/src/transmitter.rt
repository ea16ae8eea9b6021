//! A transmitter whose disk fails while a stream is deleted that it made before.

ghost use Rattle.std.specs.Prelude.{IfOk};
ghost use Rattle.sig_calls.specs.Proper.{IsProperCall, IsProperRules};

use crate::stores::{Files, mended, store};
use sig_json::{Memory, Text};
use sig_outside::MemDisk;
use sig_terms::{Call, Rules, Want};
use sig_txnode::{LoadRefused, TxFault, TxNode};
use sig_txsettings::{TxSettings, tx_settings};
use std::alloc::Global;
use std::test::Fail;

const SETTINGS: &[u8] =
    br#"{"issuer":"https://idp.example","base":"http://tx.example","listen":"127.0.0.1:8080","operator":"op","default_subjects":"ALL","min_verification_interval":60,"key":{"k":"MDEyMzQ1Njc4OWFiY2RlZjAxMjM0NTY3ODlhYmNkZWY","kid":"k1"},"clients":[{"aud":["https://rp.example"],"bearer":"acme-1","name":"acme"}]}"#;

fn rules(alloc: Global) -> Result<Rules, Memory>
    ensures { IfOk result IsProperRules }
{
    match tx_settings(alloc, SETTINGS) {
        Ok(said) => {
            let TxSettings { rules, listen: _ } = said;
            Ok(rules)
        }
        Err(_) => Err(Memory),
    }
}

fn creation(alloc: Global) -> Result<Call, Memory>
    ensures { IfOk result IsProperCall }
{
    let client = Text::of(alloc, "acme")?;
    let want = Want {
        requested: None,
        delivery: None,
        description: None,
    };
    Ok(Call::Create { client, want })
}

fn deletion(alloc: Global) -> Result<Call, Memory>
    ensures { IfOk result IsProperCall }
{
    let client = Text::of(alloc, "acme")?;
    let stream = Text::of(alloc, "acme-1")?;
    Ok(Call::Delete { client, stream })
}

fn make(alloc: Global, node: &mut TxNode<MemDisk>) -> Result<(), TxFault> {
    let call = creation(alloc)?;
    match node.take(0, &call, 1) {
        Ok(_) => Ok(()),
        Err(fault) => Err(fault),
    }
}

fn delete(alloc: Global, node: &mut TxNode<MemDisk>) -> Result<(), TxFault> {
    let call = deletion(alloc)?;
    match node.take(0, &call, 2) {
        Ok(_) => Ok(()),
        Err(fault) => Err(fault),
    }
}

// Whether the disk fails in the call, and the next call is answered as if it did.
fn fails_twice(alloc: Global, node: &mut TxNode<MemDisk>) -> bool {
    let first = delete(alloc, node);
    let second = delete(alloc, node);
    first == Err(TxFault::Store) && second == Err(TxFault::Store)
}

// Whether the node breaks in its second turn, and not before.
fn breaks(alloc: Global, node: &mut TxNode<MemDisk>) -> bool {
    let is_made = make(alloc, node).is_ok() && node.broken_at().is_none();
    let fails = fails_twice(alloc, node);
    is_made && fails && node.broken_at() == Some(2) && node.turn_count() == 3
}

// How many records a node has at first, whether the stream stands then, and whether the node breaks after that.
#[derive(Clone, Copy)]
struct Told {
    records: u64,
    stands: bool,
    breaks: bool,
}

fn told_by(alloc: Global, node: &mut TxNode<MemDisk>) -> Told {
    let records = node.records();
    let stands = node
        .copy()
        .is_ok_and(|state| state.owed("acme-1").is_some());
    let breaks = breaks(alloc, node);
    Told {
        records,
        stands,
        breaks,
    }
}

fn ended(alloc: Global, node: TxNode<MemDisk>) -> (Told, Files) {
    let mut node = node;
    let told = told_by(alloc, &mut node);
    let (a, b) = node.into_disks();
    (told, Files { a, b })
}

fn loaded(alloc: Global, files: Files) -> Result<(Told, Files), Memory> {
    let rules = rules(alloc)?;
    let Files { a, b } = files;
    match TxNode::load(alloc, a, b, rules) {
        Ok(node) => Ok(ended(alloc, node)),
        Err(
            LoadRefused {
                fault: _,
                a: _,
                b: _,
            },
        ) => Err(Memory),
    }
}

// What a node is loaded as whose disk failed at this call; none where that didn't break it.
fn loaded_again(alloc: Global, failing: u64) -> Result<Option<(u64, bool)>, Memory> {
    let (first, files) = loaded(alloc, store(alloc, b'T', failing)?)?;
    let (again, _) = loaded(alloc, mended(alloc, &files)?)?;
    if first.breaks && !again.breaks {
        Ok(Some((again.records, again.stands)))
    } else {
        Ok(None)
    }
}

// The eight calls before them load the node, and add the first record.
#[test]
fn a_broken_transmitter_is_loaded_without_the_call_or_with_it(rt: HostRuntime) -> Result<(), Fail> {
    for failing in 8..12u64 {
        let state = if failing < 11 { (1, true) } else { (2, false) };
        assert!(rt;
            loaded_again(rt.alloc(), failing)? == Some(state),
            "call {failing}"
        );
    }
    Ok(())
}
