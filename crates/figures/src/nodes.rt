// What can be a node, by the figures of 01. Assumes nothing.
ghost use Rattle.std.specs.Prelude.{◌≡◌};
ghost use Rattle.figures.specs.Nodes.{sound_node};

use crate::limits;

// Whether two words can be a node.
pub fn node_ok(code: u16, children: u16) -> bool
    ensures { result ≡ sound_node code children }
{
    (limits::LEAST_CODE..=limits::GREATEST_CODE).contains(&code)
        && children <= limits::MOST_CHILDREN
}
