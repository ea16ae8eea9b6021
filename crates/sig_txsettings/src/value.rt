//! The default subjects and the interval of verifications.

ghost use Rattle.std.specs.Prelude.{◌≡◌};
ghost use Rattle.serde_json.specs.View.{view};
ghost use Rattle.sig_txsettings.specs.Values as spec;

use sig_json::Value;
use sig_json::limits::INTERVAL_SECONDS;
use sig_settings::{SettingKind, ValueFault, itself};
use sig_terms::Defaults;
use std::alloc::Global;

/// `ALL` or `NONE` (Shared Signals Framework 1.0, section 7.1).
pub struct DefaultSubjects;

impl SettingKind for DefaultSubjects {
    type Kept = Defaults;

    ghost said = { spec.defaults_at };

    fn keep(alloc: Global, value: &Value) -> Result<Defaults, ValueFault> {
        match value.as_str() {
            Some("ALL") => Ok(Defaults::All),
            Some("NONE") => Ok(Defaults::None),
            _ => Err(itself(alloc)),
        }
    }
}

/// Seconds, a whole number from 0 to 86,400.
pub struct Interval;

impl SettingKind for Interval {
    type Kept = u64;

    ghost said = { spec.interval_at };

    fn keep(alloc: Global, value: &Value) -> Result<u64, ValueFault> {
        match value.as_u64() {
            Some(seconds) if seconds <= INTERVAL_SECONDS => Ok(seconds),
            _ => Err(itself(alloc)),
        }
    }
}
