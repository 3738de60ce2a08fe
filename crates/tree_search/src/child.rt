// The sibling of a name, found without a table. w is the width of an object name.
ghost use Rattle.std.specs.Prelude.{◌≡◌, ◌≤◌, length, drop};
ghost use Rattle.format.specs.Bytes.{eq_list};
ghost use Rattle.tree_nodes.specs.Flat.{name_of};
ghost use Rattle.tree_search.specs.Siblings.{Finds};

use fields::{find, same};
use tree_nodes::node::read_node;
use tree_nodes::passes::after_tree;

// Whether the node at a place has this name.
pub fn is_named(d: &[u8], at: usize, name: &[u8]) -> bool
    requires { at ≤ length d.now }
    ensures { result ≡ eq_list name.now (name_of (drop at d.now)) }
{
    let nul = find(d, at, 0);
    same(name, &d[at..nul])
}

// Where the first of k siblings at a place is that has this name, if one has it.
pub fn scan(d: &[u8], at: usize, k: u32, name: &[u8], w: usize) -> Option<usize>
    requires { (at ≤ length d.now) × (length d.now ≤ 16777216) }
    ensures { Finds w d.now at k name.now result }
{
    let mut place = at;
    for _ in 0..k {
        if is_named(d, place, name) {
            return Some(place);
        }
        place = after_tree(d, place, w);
    }
    None
}

// Whether k trees at a place take more than limit bytes. The look at them ends there. It only chooses how to search: nothing rests on the answer.
pub fn is_longer(d: &[u8], at: usize, k: u32, limit: usize, w: usize) -> bool
    requires { (at ≤ length d.now) × (length d.now ≤ 16777216) }
{
    let mut place = at;
    let mut pending = u64::from(k);
    // No count: the nodes below each node are still to come.
    while 0 < pending {
        if limit < place - at {
            return true;
        }
        let Some(node) = read_node(d, place, w) else {
            return true;
        };
        place = node.next;
        pending = pending - 1 + u64::from(node.subtrees);
    }
    false
}
