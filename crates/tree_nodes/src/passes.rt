// The nodes one after another, as they are in the data. w is the width of an object name.
ghost use Rattle.std.specs.Prelude.{◌≡◌, suc, ◌+◌, ◌-◌, ◌≤◌, ◌<◌, length, drop};
ghost use Rattle.tree_nodes.specs.Flat.{trees_length, SiblingAt};
ghost use Rattle.tree_nodes.specs.Levels.{stack_of, climbed, passed, NodeFound};

use crate::node::read_node;
use fields::find;

// The place of a node in the data and its level, from 1 on. The passes answer a place for any data, the end where there is no such node, and promise
// of it what the format says of any data: an Option would promise less.
#[derive(Clone, Copy)]
pub struct NodePlace {
    pub place: usize,
    pub level: u32,
}

// The end of a node's name, and the place after the node and all below it.
#[derive(Clone, Copy)]
pub struct Sibling {
    pub nul: usize,
    pub next: usize,
}

// A node at a depth is passed: one sibling less remains there, and its subtrees remain one depth further down, if it has any. No tree
// that was read has subtrees below depth 127.
fn enter(remaining: &mut [u32; 128], depth: usize, subtrees: u32) -> usize
    requires { (length remaining.old ≡ 128) × (depth < 128) }
    ensures { (length remaining.new ≡ 128) × (result < 128) × ((0 < subtrees → depth < 127) → climbed (stack_of remaining.new (suc result)) ≡ passed subtrees (stack_of remaining.old (suc depth))) }
{
    remaining[depth] = remaining[depth].saturating_sub(1);
    if subtrees == 0 {
        return depth;
    }
    if 126 < depth {
        return depth;
    }
    remaining[depth + 1] = subtrees;
    depth + 1
}

// Up from a depth to the first one on which siblings remain; 0 where there is none.
fn climb(remaining: &[u32; 128], depth: usize) -> usize
    requires { depth < 128 }
    ensures { (result < 128) × (stack_of remaining.now (suc result) ≡ climbed (stack_of remaining.now (suc depth))) }
{
    for at in (1..=depth).rev() {
        if 0 < remaining[at] {
            return at;
        }
    }
    0
}

// Node number k, from 0 on; the end where there are fewer. remaining has the number of siblings that are still to come on each depth down
// to the next node's.
pub fn find_node(d: &[u8], k: u32, w: usize) -> NodePlace
    ensures { NodeFound w d.now k result }
{
    let mut remaining = [0u32; 128];
    remaining[0] = 1;
    let mut depth: usize = 0;
    let mut place: usize = 0;
    for _ in 0..k {
        let Some(node) = read_node(d, place, w) else {
            return NodePlace {
                place: d.len(),
                level: 0,
            };
        };
        let below = enter(&mut remaining, depth, node.subtrees);
        depth = climb(&remaining, below);
        place = node.next;
    }
    NodePlace {
        place: place,
        level: depth as u32 + 1,
    }
}

// The place after k trees, one after another; the end where one of them has no node. Each node adds its subtrees to those that are still to pass.
pub fn after_trees(d: &[u8], at: usize, k: u32, w: usize) -> usize
    requires { (at ≤ length d.now) × (length d.now ≤ 16777216) }
    ensures { (result ≡ at + trees_length w k (drop at d.now)) × (result ≤ length d.now) }
{
    let mut place = at;
    let mut pending = u64::from(k);
    // No count: each node adds those below it.
    while 0 < pending {
        let Some(node) = read_node(d, place, w) else {
            return d.len();
        };
        place = node.next;
        pending = pending - 1 + u64::from(node.subtrees);
    }
    place
}

// The place after a node and all below it; the end where there is none.
pub fn after_tree(d: &[u8], at: usize, w: usize) -> usize
    requires { (at ≤ length d.now) × (length d.now ≤ 16777216) }
    ensures { (result ≡ at + trees_length w 1 (drop at d.now)) × (result ≤ length d.now) }
{
    after_trees(d, at, 1, w)
}

// Where the name of the node at a place ends, and the place after the node and all below it; the end where there is none.
pub fn sibling_at(d: &[u8], at: usize, w: usize) -> Sibling
    requires { (at ≤ length d.now) × (length d.now ≤ 16777216) }
    ensures { SiblingAt w d.now at result }
{
    match read_node(d, at, w) {
        None => Sibling {
            nul: find(d, at, 0),
            next: d.len(),
        },
        Some(node) => Sibling {
            nul: node.nul,
            next: after_trees(d, node.next, node.subtrees, w),
        },
    }
}
