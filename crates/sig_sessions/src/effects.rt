//! What an event makes of a row.

ghost use Rattle.std.specs.Prelude.{◌≡◌, option_copied, true};
ghost use Rattle.std.specs.List.{list_any};
ghost use Rattle.sig_sessions.specs.Effects as spec;
ghost use Rattle.sig_sessions.specs.Walks as walk;

use crate::state::State;
use crate::{Account, Device, Opt, Session};
use sig_caep::{CaepKind, Change, Compliance};
use sig_event::Event;
use sig_json::Text;
use sig_risc::RiscEvent;

/// Whether the event is one that has an effect.
pub(crate) fn has_effect(event: &Event) -> bool
    ensures { result ≡ spec.has_effect event.now }
{
    match event {
        Event::Caep(event) => caep_has_effect(&event.kind),
        Event::Risc(_) => true,
        Event::Verification { .. } | Event::StreamUpdated { .. } | Event::Other { .. } => false,
    }
}

// A risk level has no effect (CAEP 1.0, section 3.8).
fn caep_has_effect(kind: &CaepKind) -> bool
    ensures { result ≡ spec.caep_has_effect kind.now }
{
    !matches!(kind, CaepKind::RiskLevelChange { .. })
}

/// Whether one of the events has an effect.
pub(crate) fn have_effect(events: &[Event]) -> bool
    ensures { result ≡ list_any spec.has_effect events.now }
{
    events.iter().any(|event| has_effect(event))
}

/// The state after the event.
pub(crate) fn state_after(event: &Event, state: State) -> State
    ensures { result ≡ spec.state_after event.now state }
{
    match event {
        Event::Caep(event) => after_caep(&event.kind, state),
        Event::Risc(event) => after_risc(event, state),
        Event::Verification { .. } | Event::StreamUpdated { .. } | Event::Other { .. } => state,
    }
}

/// The state after the events, one after the other.
pub(crate) fn states_after(events: &[Event], state: State) -> State
    ensures { result ≡ walk.states_after events.now state }
{
    let mut now = state;
    for event in events {
        now = state_after(event, now);
    }
    now
}

/// The last level that the events tell.
pub(crate) fn last_told(events: &[Event]) -> Option<&Text>
    ensures { option_copied result ≡ walk.last_told events.now }
{
    let mut level = None;
    for event in events {
        if let Some(text) = told(event) {
            level = Some(text);
        }
    }
    level
}

// The level that the event tells (CAEP 1.0, section 3.4).
fn told(event: &Event) -> Option<&Text>
    ensures { option_copied result ≡ spec.told event.now }
{
    match event {
        Event::Caep(event) => match &event.kind {
            CaepKind::AssuranceLevelChange { current_level, .. } => Some(current_level),
            _ => None,
        },
        _ => None,
    }
}

// The state after an event of CAEP (CAEP 1.0, section 3).
fn after_caep(kind: &CaepKind, state: State) -> State
    ensures { result ≡ spec.after_caep kind.now state }
{
    match kind {
        CaepKind::SessionRevoked => with_session(Session::Revoked, state),
        CaepKind::TokenClaimsChange { .. } => with_stale(state),
        CaepKind::CredentialChange { change_type, .. } => after_credential(*change_type, state),
        CaepKind::AssuranceLevelChange { .. } => state,
        CaepKind::DeviceComplianceChange { current_status, .. } => State {
            device: device_of(*current_status),
            ..state
        },
        CaepKind::SessionEstablished { .. } => with_session(Session::Live, state),
        CaepKind::SessionPresented { .. } => with_session(presented(state.session), state),
        CaepKind::RiskLevelChange { .. } => state,
    }
}

// The state after an event of RISC (RISC 1.0, section 2).
fn after_risc(event: &RiscEvent, state: State) -> State
    ensures { result ≡ spec.after_risc event.now state }
{
    match event {
        RiscEvent::CredentialChangeRequired => with_reset(true, state),
        RiscEvent::AccountPurged => with_lost_account(Account::Purged, state),
        RiscEvent::AccountDisabled { .. } => with_lost_account(Account::Disabled, state),
        RiscEvent::AccountEnabled => State {
            account: Account::Enabled,
            ..state
        },
        RiscEvent::IdentifierChanged { .. } => with_stale(state),
        RiscEvent::IdentifierRecycled => with_session(Session::Revoked, state),
        RiscEvent::CredentialCompromise { .. } => with_reset(true, state),
        RiscEvent::OptIn => with_opt(Opt::In, state),
        RiscEvent::OptOutInitiated => with_opt(Opt::Leaving, state),
        RiscEvent::OptOutCancelled => with_opt(Opt::In, state),
        RiscEvent::OptOutEffective => with_opt(Opt::Out, state),
        RiscEvent::RecoveryActivated => with_stale(state),
        RiscEvent::RecoveryInformationChanged => with_stale(state),
        RiscEvent::SessionsRevoked => with_session(Session::Revoked, state),
    }
}

// A new or renewed credential is no longer one to be reset; a revoked or deleted one makes what was read of it old.
fn after_credential(change: Change, state: State) -> State
    ensures { result ≡ spec.after_credential change state }
{
    match change {
        Change::Create | Change::Update => with_reset(false, state),
        Change::Revoke | Change::Delete => with_stale(state),
    }
}

// A session that is presented lives, unless more was known of it.
fn presented(session: Session) -> Session
    ensures { result ≡ spec.presented session }
{
    match session {
        Session::Unseen => Session::Live,
        Session::Live => Session::Live,
        Session::Revoked => Session::Revoked,
    }
}

fn device_of(status: Compliance) -> Device
    ensures { result ≡ spec.device_of status }
{
    match status {
        Compliance::Compliant => Device::Compliant,
        Compliance::NotCompliant => Device::NotCompliant,
    }
}

fn with_session(session: Session, state: State) -> State
    ensures { result ≡ spec.with_session session state }
{
    State { session, ..state }
}

// An account that is disabled or purged takes its session with it.
fn with_lost_account(account: Account, state: State) -> State
    ensures { result ≡ spec.with_account account (spec.with_session Session.Revoked state) }
{
    State {
        account,
        session: Session::Revoked,
        ..state
    }
}

fn with_reset(reset: bool, state: State) -> State
    ensures { result ≡ spec.with_reset reset state }
{
    State { reset, ..state }
}

fn with_stale(state: State) -> State
    ensures { result ≡ spec.with_stale true state }
{
    State {
        stale: true,
        ..state
    }
}

fn with_opt(opt: Opt, state: State) -> State
    ensures { result ≡ spec.with_opt opt state }
{
    State { opt, ..state }
}
