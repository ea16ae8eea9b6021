//! What is kept of a stream's attempts.

ghost use Rattle.std.specs.Prelude.{◌≡◌, ◌≤◌};
ghost use Rattle.sig_json.specs.declared.limits.TheConstants.{LAST_NUMBER};
ghost use Rattle.sig_courier.specs.Waits as waits;

/// When a stream was last tried, and how late it is by the attempts after its last good one.
#[derive(Clone, Copy)]
pub struct Late {
    /// When it is due, in seconds since 1970; 0 where its last attempt was good, or it has none.
    pub due: u64,
    /// How long it waits after the last of them, in seconds; 0 where there is none.
    pub wait: u64,
    /// How many they are, up to 2^64 - 1.
    pub row: u64,
    /// When the last attempt of all was made, in seconds since 1970; 0 where there is none.
    pub at: u64,
}

// The wait after the first late attempt, in seconds.
const FIRST_WAIT: u64 = 30;

// The longest wait, in seconds.
const LONGEST_WAIT: u64 = 3_600;

impl Late {
    /// A stream that has no attempt.
    pub const NOT: Late = Late {
        due: 0,
        wait: 0,
        row: 0,
        at: 0,
    };

    /// After one more attempt, which was made then.
    pub fn after(self, at: u64, good: bool) -> Late
        requires { at ≤ LAST_NUMBER }
        ensures { result ≡ waits.after self at good }
    {
        if good {
            return Late { at, ..Late::NOT };
        }
        let wait = match self.wait {
            0 => FIRST_WAIT,
            wait => wait.min(LONGEST_WAIT / 2) * 2,
        };
        Late {
            due: at + wait,
            wait,
            row: self.row.saturating_add(1),
            at,
        }
    }
}
