use crate::{Account, Device, Opt, Session};

/// What is known of a row but its subject and its level.
#[derive(Clone, Copy, PartialEq, Eq)]
pub(crate) struct State {
    pub session: Session,
    pub account: Account,
    pub device: Device,
    pub reset: bool,
    pub stale: bool,
    pub opt: Opt,
}
