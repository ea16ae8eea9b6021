//! Laws over the definitions: each function's contract is the law, and nothing calls it.

ghost use Rattle.sig_manager_laws.specs.Asked.{ListsAreRouted, StepsAreRouted};
ghost use Rattle.sig_manager_laws.specs.Configured.{ConfigurationsAreReadBack};
ghost use Rattle.sig_manager_laws.specs.Heard.{ConfigurationsAreHeard, StreamsAreHeard};

/// The object of a stream's configuration is read back as what its receiver may set of it.
pub fn configurations_are_read_back()
    ensures { ConfigurationsAreReadBack }
{}

/// With a client's bearer the first request of a manager asks for all streams of that client.
pub fn lists_are_routed()
    ensures { ListsAreRouted }
{}

/// And the request of a step makes the call of that step, with the same stream, want and status.
pub fn steps_are_routed()
    ensures { StepsAreRouted }
{}

/// The configurations that a response tells are heard one by one, each with its name, its description and its want.
pub fn configurations_are_heard()
    ensures { ConfigurationsAreHeard }
{}

/// A client that asks for its streams hears of each of them, in the order of their numbers, and of no other.
pub fn streams_are_heard()
    ensures { StreamsAreHeard }
{}
