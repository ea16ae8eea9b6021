ghost use Rattle.std.specs.Prelude.{◌≡◌};

use crate::path::Step;
use sig_json::{Items, MemoryRefusal, Text};
use thiserror::Error;

/// Why settings are none. The first value that is missing or wrong decides.
#[derive(Debug, Drop, Error)]
pub enum SettingsFault {
    /// The value at this path is missing or wrong, as `listen` or `issuers[1].keys[0].k`; places in lists count from 0. It is
    /// `length` where there are too many bytes, and `body` where they spell no JSON object.
    #[error("a setting is missing or wrong")]
    Refused(Text),
    /// Out of memory.
    #[error("out of memory")]
    Memory,
}

impl<R: MemoryRefusal> From<R> for SettingsFault {
    ghost use Rattle.sig_settings.specs.declared.fault.SettingsFault.TheVariants.{Memory};

    ghost from_gives = { λ _ e. e ≡ Memory };

    fn from(_refusal: R) -> SettingsFault {
        SettingsFault::Memory
    }
}

/// Why a value of settings is none of its kind. The first value inside it that is missing or wrong decides.
#[derive(Debug, Drop, Error)]
pub enum ValueFault {
    /// What these steps from the value lead to is missing or wrong, the outermost step first; without a step it is the value
    /// itself.
    #[error("a value of settings is missing or wrong")]
    Wrong(Items<Step>),
    /// Out of memory.
    #[error("out of memory")]
    Memory,
}

impl<R: MemoryRefusal> From<R> for ValueFault {
    ghost use Rattle.sig_settings.specs.declared.fault.ValueFault.TheVariants.{Memory};

    ghost from_gives = { λ _ e. e ≡ Memory };

    fn from(_refusal: R) -> ValueFault {
        ValueFault::Memory
    }
}
