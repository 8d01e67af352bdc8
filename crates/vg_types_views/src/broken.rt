// The breach of a rule.
use vg_base::NodeId;

/// A rule of the language, by its number, and the node that breaks it.
#[derive(Clone, Copy, Debug, PartialEq, Eq)]
pub struct Broken {
    pub rule: u8,
    pub node: NodeId,
}
