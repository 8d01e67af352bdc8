// Breaches as answers.
ghost use Rattle.std.specs.Prelude.{◌≡◌};
ghost use Rattle.vg_base.specs.declared.refusal.Refusal.TheVariants.{Fault};

use vg_base::{NodeId, Refusal};
use vg_types_views::Broken;

/// The breach of a rule at a node.
pub fn broken(rule: u8, node: u32) -> Refusal<Broken>
    ensures { result ≡ Fault (record { rule = rule; node = record { 0 = node } }) }
{
    Refusal::Fault(Broken {
        rule,
        node: NodeId(node),
    })
}
