ghost use Rattle.std.specs.Prelude.{◌≡◌, ℕ, IfOk, [], false};
ghost use Rattle.sig_serving.specs.Line.{seen};
ghost use Rattle.sig_watch.specs.Sights.{Sight, errand, sight};

use crate::{Lasting, Opened, Shared};
use sig_book::Naming;
use sig_json::Memory;
use sig_links::{Link, Side};
use std::alloc::Global;
use std::sync::{Mutex, Wait};

/// What a watch serves: how it is opened over a node, and how each of its links is served.
///
/// Its meanings: `rules_of` are the rules that a node lends to links, `is_history` says what holds of every node, and `serves`
/// says how a link comes to a log by such rules: its number, its log, and what is seen of it and of its side before and after;
/// and likewise how an errand does.
pub trait Served: Lasting {
    type Rules: Sync + Drop;

    ghost rules_of: { Self.Node → Self.Rules };

    ghost is_history: { Self.Node → Type 0 };

    ghost serves: { Self.Rules → ℕ → Self.Log → Sight → Sight → Type 0 };

    /// A copy of the rules. Out of memory is its only error.
    fn rules(alloc: Global, node: &Self::Node) -> Result<Self::Rules, Memory>
        ensures { IfOk result (λ rules. rules ≡ rules_of node.now) };

    /// Opens a watch of a node that isn't broken: from now on its base is its state, and it has no turn. It takes no memory.
    fn open_watch(node: &mut Self::Node)
        requires { Self.Node.broken node.old ≡ false }
        ensures follows { Self.follows node.old node.new }
        ensures fresh { Self.Node.turns_of node.new ≡ [] };

    /// What holds of every node. It does nothing.
    fn recalls(node: &Self::Node)
        ensures { is_history node.now };

    /// Whether an errand is to be done at this time, in seconds since 1970, by what is known beside the node. Where it says so,
    /// the errand is begun next.
    fn wants_errand(company: &mut Self::Company, now: u64) -> bool;

    /// What is known beside the node is told that the system lacked something for a while that an accept needs.
    fn accept_lacked(company: &mut Self::Company);

    /// Does an errand under this number, with the node under its lock as what answers its calls. It may wait for links that it
    /// dials, and for others that ask the node.
    fn errand<O: Opened<Self::Node> + Naming, R: Wait, S: Side>(
        alloc: Global,
        rt: &R,
        node: &Mutex<Shared<Self, O>>,
        rules: &Self::Rules,
        number: u32,
        side: &mut S,
    ) -> Self::Log
        ensures { serves rules.now number result (errand (S.view side.old)) (errand (S.view side.new)) };

    /// Serves a link under this number, with the node under its lock as what answers its calls. It may wait for the link, for
    /// those that it dials, and for others that ask the node.
    fn serve<O: Opened<Self::Node> + Naming, R: Wait, L: Link, S: Side>(
        alloc: Global,
        rt: &R,
        node: &Mutex<Shared<Self, O>>,
        rules: &Self::Rules,
        number: u32,
        link: &mut L,
        side: &mut S,
    ) -> Self::Log
        ensures { serves rules.now number result
            (sight (seen L.left L.written L.Source.faults L.Sink.faults link.old) (S.view side.old))
            (sight (seen L.left L.written L.Source.faults L.Sink.faults link.new) (S.view side.new)) };
}
