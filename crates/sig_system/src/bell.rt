//! What asks the links of a door to end soon.

use std::alloc::{AllocError, Global};
use std::sync::Arc;
use std::sync::atomic::{AtomicU64, Ordering};

/// A bell that a door and its links share. It is rung once for all links that were made before. No contract speaks of it, since
/// each thread may ring it at any time.
#[derive(Drop)]
pub struct Bell {
    // How often it was rung.
    rung: Arc<AtomicU64, Global>,
    // How often it had been rung as this end of it was made.
    heard: u64,
}

impl Bell {
    /// A bell that nobody has rung. Out of memory is its only error.
    pub fn new(alloc: Global) -> Result<Bell, AllocError> {
        let rung = Arc::new(alloc, AtomicU64::new(0))?;
        Ok(Bell { rung, heard: 0 })
    }

    /// Another end of it, for a link that is made now. There is none where too many share it.
    pub fn shared(&self) -> Option<Bell> {
        let rung = Arc::try_clone(&self.rung).ok()?;
        let heard = rung.load(Ordering::SeqCst);
        Some(Bell { rung, heard })
    }

    /// A copy of this end, which has heard what this one has. There is none where too many share the bell.
    pub fn again(&self) -> Option<Bell> {
        let rung = Arc::try_clone(&self.rung).ok()?;
        Some(Bell {
            rung,
            heard: self.heard,
        })
    }

    /// Rings it for all ends that were made before.
    pub fn ring(&self) {
        self.rung.fetch_add(1, Ordering::SeqCst);
    }

    /// Whether it was rung since this end was made.
    pub fn is_rung(&self) -> bool {
        self.rung.load(Ordering::SeqCst) != self.heard
    }
}
