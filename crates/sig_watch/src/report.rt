use sig_logs::Differ;

/// What a watch came to. The state before its first link is the base of the node that is handed back with it.
#[derive(Clone, Copy, PartialEq, Eq)]
pub struct Report {
    /// How many links it served.
    pub links: u32,
    /// Whether the door said that no further link will come.
    pub shut: bool,
}

/// How a watch ended, with the node.
pub enum WatchEnd<N> {
    /// As many links were served as a watch may have, or the door is shut.
    Done {
        node: N,
        report: Report,
    },
    /// The door failed.
    DoorFault {
        node: N,
        report: Report,
    },
    /// The node is broken.
    Broken {
        node: N,
        report: Report,
    },
    /// No further link was accepted since the node was broken when it was asked, but the node isn't broken now. A node that is
    /// broken stays so; but that it was is known under its lock alone.
    Halted {
        node: N,
        report: Report,
    },
    /// A log and the node have other turns, whether the node is broken or not; or, at the place 0, they could not be compared.
    Disagree {
        node: N,
        differ: Differ,
        report: Report,
    },
    /// Out of memory, before the first link was accepted. The node is as it was.
    Memory {
        node: N,
    },
}
