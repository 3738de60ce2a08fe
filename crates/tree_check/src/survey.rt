// One pass over the nodes of a tree, one after another: whether the subtrees of valid nodes are valid, and how many nodes are
// valid with a count of at least 1.
ghost use Rattle.std.specs.Prelude.{◌≡◌, cond, not, ◌&&◌, ℕ, ◌+◌, ◌-◌, ◌≤◌, ◌<◌, length, drop, ltb};
ghost use Rattle.format.specs.Records.{Forest};
ghost use Rattle.tree_nodes.specs.Flat.{Reads};
ghost use Rattle.tree_check.specs.Nodes.{weight_of};
ghost use Rattle.tree_check.specs.Survey.{survey_of};

use tree_nodes::node::read_node;

// 1 for a count of at least 1.
pub fn weight(count: Option<u32>) -> u32
    ensures { (result ≡ weight_of count) × (result ≤ 1) }
{
    match count {
        Some(n) => u32::from(1 <= n),
        None => 0,
    }
}

// Whether a node is invalid where the next strict ones have to be valid.
fn is_wrong(strict: u64, valid: bool) -> bool
    ensures { result ≡ (ltb 0 strict && not valid) }
{
    !valid && 0 < strict
}

// How many of the next have to be valid after a node with this number of subtrees.
fn demand(strict: u64, valid: bool, subtrees: u32) -> u64
    requires { strict < 9223372036854775808 }
    ensures { (result ≡ cond valid (strict - 1 + subtrees) 0) × (result ≤ strict - 1 + subtrees) }
{
    if valid {
        return strict.saturating_sub(1) + u64::from(subtrees);
    }
    0
}

// How many of k siblings at a place and of all nodes below them have a count of at least 1; none where one below a valid node is invalid. valid says whether
// the node above them is valid.
pub fn survey_trees(d: &[u8], at: usize, k: u32, valid: bool, w: usize) -> Option<u32>
    requires { (at ≤ length d.now) × (length d.now ≤ 16777216) }
    ensures { (f : Forest) (m : ℕ) → Reads w (drop at d.now) f k m → result ≡ survey_of valid f }
{
    let mut place = at;
    let mut pending = u64::from(k);
    let mut strict = demand(0, valid, k);
    let mut nodes: u32 = 0;
    // No count: each node adds those below it.
    while 0 < pending {
        let node = read_node(d, place, w)?;
        let valid = node.count.is_some();
        if is_wrong(strict, valid) {
            return None;
        }
        strict = demand(strict, valid, node.subtrees);
        nodes += weight(node.count);
        pending = pending - 1 + u64::from(node.subtrees);
        place = node.next;
    }
    Some(nodes)
}
