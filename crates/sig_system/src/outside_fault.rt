use thiserror::Error;

/// Why the settings, a store or a door could not be had.
#[derive(Clone, Copy, Debug, PartialEq, Eq, Error)]
pub enum OutsideFault {
    /// The system doesn't open the file of the settings.
    #[error("the settings can't be opened")]
    Settings,
    /// The system doesn't open or make the file of a store, or syncing it failed.
    #[error("the store can't be opened")]
    Store,
    /// Another process has the store open.
    #[error("the store is in use")]
    StoreInUse,
    /// The system doesn't know the place, or lets nobody listen there.
    #[error("the place can't be listened at")]
    Door,
    /// Another process listens at the place.
    #[error("the place is in use")]
    PlaceInUse,
    /// Out of memory.
    #[error("out of memory")]
    Memory,
}
