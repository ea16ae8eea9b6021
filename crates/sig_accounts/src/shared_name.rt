ghost use Rattle.std.specs.Prelude.{◌≡◌, IfOk};

use sig_json::{Memory, Same, Text};
use std::alloc::Global;
use std::marker::Model;
use std::sync::Arc;

/// A name that several values hold together: its text stands once in memory, for as long as one of them does. Contracts see
/// it as the name.
#[derive(Drop)]
pub struct SharedName {
    text: Arc<Text, Global>,
}

impl Model for SharedName {
    ghost use Rattle.std.specs.Prelude.{ℕ, List};
    ghost use Rattle.std.specs.Arc.{arc_value};

    ghost Value = { List ℕ };

    ghost view = { λ s. arc_value s.text };
}

impl SharedName {
    /// A name that nothing else holds yet.
    pub fn of(alloc: Global, name: Text) -> Result<SharedName, Memory>
        ensures { IfOk result (λ s. s ≡ name) }
    {
        Ok(SharedName {
            text: Arc::new(alloc, name)?,
        })
    }

    /// The same name, held once more: no text is copied.
    pub fn share(&self) -> Result<SharedName, Memory>
        ensures { IfOk result (λ s. s ≡ self.now) }
    {
        Ok(SharedName {
            text: Arc::try_clone(&self.text)?,
        })
    }

    /// The name.
    pub fn text(&self) -> &Text
        ensures { result.now ≡ self.now }
    {
        &self.text
    }
}

impl Same for SharedName {
    fn same(&self, other: &SharedName) -> bool {
        self.text().same(other.text())
    }
}
