//! How a stream stands, with what came of the attempts to bring it its tokens, and how that is told in JSON.

ghost use Rattle.std.specs.Prelude.{◌≡◌, IfOk, OnOk, codes, option_map};
ghost use Rattle.serde_json.specs.Data.{number, unsigned};
ghost use Rattle.serde_json.specs.View.{members_view, view};
ghost use Rattle.sig_stream.specs.Configurations.{put_given};
ghost use Rattle.sig_txroutes.specs.Documents as spec;

use crate::document::standing_members;
use serde_json::Map;
use sig_json::{Memory, Value, put_value};
use sig_terms::Standing;
use std::alloc::Global;

/// What came of the attempts to bring a stream its tokens.
#[derive(Clone, Copy)]
pub struct Pushed {
    /// When the last one was made, in seconds since 1970.
    pub at: u64,
    /// How many were late in a row since the last good one; 0 where the last one was good.
    pub late: u64,
    /// When the next may come, in seconds since 1970, where some were late.
    pub due: u64,
}

/// How a stream stands, and what came of the attempts, where there was one.
#[derive(Drop)]
pub struct ToldStream {
    /// How it stands.
    pub standing: Standing,
    /// What came of the attempts.
    pub push: Option<Pushed>,
}

/// A page of streams, with the place behind it.
pub fn told_page(alloc: Global, next: u64, streams: &[ToldStream]) -> Result<Value, Memory>
    ensures { IfOk result (λ v. view v ≡ spec.told_page_data next streams.now) }
{
    let told = told_streams(alloc, streams)?;
    let mut members = Map::new(alloc);
    put_value(alloc, &mut members, "next", Value::from(next))?;
    put_value(alloc, &mut members, "streams", told)?;
    Ok(Value::Object(members))
}

fn told_streams(alloc: Global, streams: &[ToldStream]) -> Result<Value, Memory>
    ensures { IfOk result (λ v. view v ≡ spec.told_streams_data streams.now) }
{
    let mut values = Vec::new(alloc);
    for stream in streams {
        values.push(told_stream(alloc, stream)?)?;
    }
    Ok(Value::Array(values))
}

fn told_stream(alloc: Global, stream: &ToldStream) -> Result<Value, Memory>
    ensures { IfOk result (λ v. view v ≡ spec.told_data stream.now) }
{
    let mut members = standing_members(alloc, &stream.standing)?;
    put_pushed(alloc, &mut members, stream.push)?;
    Ok(Value::Object(members))
}

fn put_pushed(
    alloc: Global,
    members: &mut Map<String, Value>,
    push: Option<Pushed>,
) -> Result<(), Memory>
    ensures { OnOk result (members_view members.new.entries
        ≡ put_given (codes "push") (option_map spec.pushed_data push) (members_view members.old.entries)) }
{
    let Some(pushed) = push else {
        return Ok(());
    };
    let value = pushed_value(alloc, pushed)?;
    put_value(alloc, members, "push", value)
}

fn pushed_value(alloc: Global, pushed: Pushed) -> Result<Value, Memory>
    ensures { IfOk result (λ v. view v ≡ spec.pushed_data pushed) }
{
    let mut members = Map::new(alloc);
    put_value(alloc, &mut members, "at", Value::from(pushed.at))?;
    put_value(alloc, &mut members, "late", Value::from(pushed.late))?;
    put_due(alloc, &mut members, pushed)?;
    Ok(Value::Object(members))
}

fn put_due(alloc: Global, members: &mut Map<String, Value>, pushed: Pushed) -> Result<(), Memory>
    ensures { OnOk result (members_view members.new.entries ≡ put_given (codes "due") (spec.due_of pushed) (members_view members.old.entries)) }
{
    if pushed.late == 0 {
        return Ok(());
    }
    put_value(alloc, members, "due", Value::from(pushed.due))
}
