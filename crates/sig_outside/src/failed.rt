use thiserror::Error;

/// A call of a device failed: of a source, a sink, a disk, a link or a door. The device has counted it.
#[derive(Clone, Copy, Debug, PartialEq, Eq, Error)]
#[error("a call of a device failed")]
pub struct Failed;
