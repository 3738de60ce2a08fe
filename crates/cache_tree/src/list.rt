// Lists of siblings. Reading a node means reading its list of subtrees, and each of these is a node: the two readers call each other.
// They end because fewer bytes remain: a node's list is after the node. The levels are a limit of the format, and tested as such.
// w is the width of an object name.
ghost use Rattle.std.specs.Prelude.{◌≡◌, ◌≤◌, ◌<◌, length, drop};
ghost use Rattle.format.specs.Layout.{ok_node_name, distinct};
ghost use Rattle.format.specs.Reader.{read_forest};
ghost use Rattle.cache_tree.specs.Answers.{read_one, tested, distinct_below, list_at, rooted};

use crate::differ::differ;
use crate::orders::{Rising, rise};
use tree_nodes::node::read_node;
use tree_table::Table;

// The place after a list and its number of nodes in all.
#[derive(Clone, Copy)]
pub struct Listed {
    pub next: usize,
    pub nodes: u32,
}

// Whether a node below the root may have this name: 1 byte or more, and no "/".
fn name_ok(name: &[u8]) -> bool
    ensures { result ≡ ok_node_name name.now }
{
    !name.is_empty() && !name.contains(&b'/')
}

// A node and its list of subtrees.
pub(crate) fn with_root(below: Listed) -> Listed
    requires { below.nodes < 4294967295 }
    ensures { result ≡ rooted below }
{
    Listed {
        nodes: below.nodes + 1,
        ..below
    }
}

// The node at a place and all below it, with at most the given number of levels.
#[cycle(readers)]
pub fn read_subtree(d: &[u8], at: usize, levels: u32, t: &mut Table, w: usize) -> Option<Listed>
    requires { (at ≤ length d.now) × (length d.now ≤ 16777216) × (levels ≤ 127) × (length t.old ≡ 3126) }
    ensures { (result ≡ list_at at (tested distinct_below (read_one w levels (drop at d.now)))) × (length t.new ≡ 3126) }
{
    if levels == 0 {
        return None;
    }
    let node = read_node(d, at, w)?;
    if !name_ok(&d[at..node.nul]) {
        return None;
    }
    let below = read_list(d, node.next, levels - 1, node.subtrees, t, w)?;
    Some(with_root(below))
}

// k siblings at a place and all below them, with at most the given number of levels. Names that rise in one of two orders differ; others are looked at again.
#[cycle(readers)]
pub fn read_list(
    d: &[u8],
    at: usize,
    levels: u32,
    k: u32,
    t: &mut Table,
    w: usize,
) -> Option<Listed>
    requires { (at ≤ length d.now) × (length d.now ≤ 16777216) × (levels ≤ 127) × (length t.old ≡ 3126) }
    ensures { (result ≡ list_at at (tested distinct (read_forest w 0 levels k (drop at d.now)))) × (length t.new ≡ 3126) }
{
    let mut place = at;
    let mut previous = at;
    let mut nodes: u32 = 0;
    let mut rises = Rising {
        by_slash: true,
        by_length: true,
    };
    for _ in 0..k {
        let subtree = read_subtree(d, place, levels, t, w)?;
        rises = rise(d, previous, place, rises);
        previous = place;
        place = subtree.next;
        nodes += subtree.nodes;
    }
    if rises.by_slash || rises.by_length || differ(d, at, k, t, w) {
        return Some(Listed {
            next: place,
            nodes: nodes,
        });
    }
    None
}
