//! The nodes that lines name.

ghost use Rattle.sig_script.specs.Nodes.{node_text, nodes};

use sig_json::Listed;

/// A node of a script.
#[derive(Clone, Copy, PartialEq, Eq)]
pub enum ScriptNode {
    /// The transmitter.
    Tx,
    /// The receiver.
    Rx,
}

impl Listed for ScriptNode {
    ghost use Rattle.sig_script.specs.declared.script_node.ScriptNode.TheVariants.{Tx};

    ghost values = { nodes };

    ghost text_of = { node_text };

    ghost otherwise = { Tx };

    #[tactic(auto, unfolding(crate::specs::Nodes::nodes))]
    fn values() -> &'static [ScriptNode] {
        &[ScriptNode::Tx, ScriptNode::Rx]
    }

    #[tactic(auto, unfolding(crate::specs::Nodes::node_text))]
    fn as_str(&self) -> &'static str {
        match self {
            ScriptNode::Tx => "tx",
            ScriptNode::Rx => "rx",
        }
    }
}
