use crate::state::State;
use sig_json::Text;

/// What becomes of the row at a place.
#[derive(Drop)]
pub(crate) struct Update {
    /// Its place, from 0.
    pub place: usize,
    /// Its new state.
    pub state: State,
    /// Its new level, where it gets one.
    pub level: Option<Text>,
}
