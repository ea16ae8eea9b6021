//! The lines. Out of memory is the only error of each.

ghost use Rattle.std.specs.Prelude.{◌≡◌, ◌++◌, IfOk, OnOk, codes, decimal, string_bytes};
ghost use Rattle.std.specs.Option.{option_copied};
ghost use Rattle.sig_notes.specs.Lines as spec;

use crate::{EndCause, Held, LinkCause, PushCause};
use itoa::Buffer;
use sig_json::{Memory, Text};
use std::alloc::Global;

/// A transmitter that speaks for this issuer serves at this host and port, and holds this.
pub fn serving(
    alloc: Global,
    issuer: &str,
    host: &str,
    port: u16,
    held: Held,
) -> Result<Text, Memory>
    ensures { IfOk result (λ line. line ≡ spec.serving issuer.now host.now port held) }
{
    let mut line = String::from_str(alloc, "serving ")?;
    line.push_str(issuer)?;
    line.push_str(" on ")?;
    line.push_str(host)?;
    line.push_str(":")?;
    push_number(&mut line, u64::from(port))?;
    line.push_str(": ")?;
    push_held(&mut line, held)?;
    Ok(Text::from_string(line))
}

/// A receiver that knows so many issuers serves at this host and port, over a journal of so many tokens.
pub fn receiving(
    alloc: Global,
    host: &str,
    port: u16,
    issuers: u64,
    tokens: u64,
) -> Result<Text, Memory>
    ensures { IfOk result (λ line. line ≡ spec.receiving host.now port issuers tokens) }
{
    let mut line = String::from_str(alloc, "receiving on ")?;
    line.push_str(host)?;
    line.push_str(":")?;
    push_number(&mut line, u64::from(port))?;
    line.push_str(": ")?;
    push_number(&mut line, issuers)?;
    line.push_str(" issuers, ")?;
    push_number(&mut line, tokens)?;
    line.push_str(" tokens")?;
    Ok(Text::from_string(line))
}

/// A server ended by this cause.
pub fn ended(alloc: Global, cause: EndCause) -> Result<Text, Memory>
    ensures { IfOk result (λ line. line ≡ spec.ended cause) }
{
    let mut line = String::from_str(alloc, "ended ")?;
    line.push_str(cause.as_str())?;
    Ok(Text::from_string(line))
}

/// A receiver reported the token of this number of a stream as faulty.
pub fn reported(alloc: Global, stream: &str, number: u64, code: &str) -> Result<Text, Memory>
    ensures { IfOk result (λ line. line ≡ spec.reported stream.now number code.now) }
{
    let mut line = String::from_str(alloc, "refused ")?;
    line.push_str(stream)?;
    line.push_str(".")?;
    push_number(&mut line, number)?;
    line.push_str(" ")?;
    line.push_str(code)?;
    Ok(Text::from_string(line))
}

/// Of so many tokens that this stream was to be brought so many are late, by this cause.
pub fn push_late(
    alloc: Global,
    stream: &str,
    late: u64,
    tokens: u64,
    cause: PushCause,
) -> Result<Text, Memory>
    ensures { IfOk result (λ line. line ≡ spec.push_late stream.now late tokens cause) }
{
    let mut line = String::from_str(alloc, "push ")?;
    line.push_str(stream)?;
    line.push_str(" late ")?;
    push_number(&mut line, late)?;
    line.push_str(" of ")?;
    push_number(&mut line, tokens)?;
    line.push_str(" ")?;
    line.push_str(cause.as_str())?;
    Ok(Text::from_string(line))
}

/// This stream was late, and was brought so many tokens.
pub fn push_good(alloc: Global, stream: &str, tokens: u64) -> Result<Text, Memory>
    ensures { IfOk result (λ line. line ≡ spec.push_good stream.now tokens) }
{
    let mut line = String::from_str(alloc, "push ")?;
    line.push_str(stream)?;
    line.push_str(" good ")?;
    push_number(&mut line, tokens)?;
    Ok(Text::from_string(line))
}

/// A token was refused that was pushed for this issuer, where the bearer names one, at this part of it.
pub fn refused_push(
    alloc: Global,
    issuer: Option<&Text>,
    code: &str,
    spot: &str,
) -> Result<Text, Memory>
    ensures { IfOk result (λ line. line ≡ spec.refused_push (option_copied issuer.entry) code.now spot.now) }
{
    let mut line = String::from_str(alloc, "refused push of ")?;
    line.push_str(or_dash(issuer))?;
    line.push_str(" ")?;
    line.push_str(code)?;
    line.push_str(" ")?;
    line.push_str(spot)?;
    Ok(Text::from_string(line))
}

/// A token was refused that a poll listed under this identifier.
pub fn refused_listed(alloc: Global, jti: Option<&Text>, code: &str) -> Result<Text, Memory>
    ensures { IfOk result (λ line. line ≡ spec.refused_listed (option_copied jti.entry) code.now) }
{
    let mut line = String::from_str(alloc, "refused ")?;
    line.push_str(or_dash(jti))?;
    line.push_str(" ")?;
    line.push_str(code)?;
    Ok(Text::from_string(line))
}

/// A poll was answered with this status, by which there is no page.
pub fn peer_status(alloc: Global, status: u16) -> Result<Text, Memory>
    ensures { IfOk result (λ line. line ≡ spec.peer_status status) }
{
    let mut line = String::from_str(alloc, "peer status ")?;
    push_number(&mut line, u64::from(status))?;
    Ok(Text::from_string(line))
}

/// A link ended by this fault.
pub fn link_ended(alloc: Global, cause: LinkCause) -> Result<Text, Memory>
    ensures { IfOk result (λ line. line ≡ spec.link_ended cause) }
{
    let mut line = String::from_str(alloc, "link ended ")?;
    line.push_str(cause.as_str())?;
    Ok(Text::from_string(line))
}

// A name, or a dash where there is none.
fn or_dash(name: Option<&Text>) -> &str
    ensures { result.now ≡ spec.or_dash (option_copied name.entry) }
{
    match name {
        Some(given) => given.as_str(),
        None => "-",
    }
}

// Puts last what a transmitter holds.
fn push_held(line: &mut String, held: Held) -> Result<(), Memory>
    ensures { OnOk result (string_bytes line.new ≡ string_bytes line.old
        ++ decimal held.streams ++ codes " streams, " ++ decimal held.owed ++ codes " owed, "
        ++ decimal held.records ++ codes " records") }
{
    push_number(line, held.streams)?;
    line.push_str(" streams, ")?;
    push_number(line, held.owed)?;
    line.push_str(" owed, ")?;
    push_number(line, held.records)?;
    line.push_str(" records")?;
    Ok(())
}

// Puts a number last.
fn push_number(line: &mut String, number: u64) -> Result<(), Memory>
    ensures { OnOk result (string_bytes line.new ≡ string_bytes line.old ++ decimal number) }
{
    let mut digits = Buffer::new();
    line.push_str(digits.format(number))?;
    Ok(())
}
