use sig_event::Status;
use sig_json::Text;
use sig_terms::Want;

/// What is asked of a transmitter once it has listed a client's streams (OpenID Shared Signals Framework 1.0, sections 8.1.1
/// and 8.1.2).
pub enum Step {
    /// Which status a stream that is kept has; another than this one is set later.
    Status { stream: Text, wanted: Status },
    /// A stream that isn't declared is to go.
    Delete { stream: Text },
    /// A stream that is kept is to be another.
    Replace { stream: Text, want: Want },
    /// A stream that isn't there is to be made, and to have this status.
    Create { want: Want, status: Status },
    /// A stream is to have another status.
    SetStatus { stream: Text, status: Status },
}

impl Drop for Step {
    fn drop(self) {
        match self {
            Step::Status { stream, wanted: _ } => drop(stream),
            Step::Delete { stream } => drop(stream),
            Step::Replace { stream, want } => {
                drop(stream);
                drop(want);
            }
            Step::Create { want, status: _ } => drop(want),
            Step::SetStatus { stream, status: _ } => drop(stream),
        }
    }
}
