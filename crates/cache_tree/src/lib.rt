// The cache tree: reading the data of the TREE extension. Every fault of the data is refusal 15, so the answers have no number.
// w is the width of an object name.

#![tactic(auto)]

pub mod differ;
pub mod list;
pub mod orders;

ghost use Rattle.std.specs.Prelude.{◌≡◌, ℕ, ◌≤◌, length};
ghost use Rattle.cache_tree.specs.Shape.{read_shape, read_distinct, nodes_at, tree_of};

use crate::list::{Listed, read_list, with_root};
use tree_nodes::node::read_node;
use tree_table::Table;

// The root, whose name is empty, and all below it.
fn read_nodes(d: &[u8], t: &mut Table, w: usize) -> Option<Listed>
    requires { (length d.now ≤ 16777216) × (length t.old ≡ 3126) }
    ensures { (result ≡ nodes_at (read_distinct w d.now)) × (length t.new ≡ 3126) }
{
    let root = read_node(d, 0, w)?;
    if root.nul != 0 {
        return None;
    }
    let below = read_list(d, root.next, 127, root.subtrees, t, w)?;
    Some(with_root(below))
}

// The whole data but for its entry counts: the number of nodes.
pub fn read_tree(d: &[u8], t: &mut Table, w: usize) -> Option<u32>
    requires { (length d.now ≤ 16777216) × (length t.old ≡ 3126) }
    ensures { ((p : ℕ) → result ≡ tree_of (read_shape w p d.now)) × (length t.new ≡ 3126) }
{
    let all = read_nodes(d, t, w)?;
    if all.next != d.len() {
        return None;
    }
    Some(all.nodes)
}
