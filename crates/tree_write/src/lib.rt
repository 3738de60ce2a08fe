// Writing the data of a cache tree from the data of one that was read. A number has one decimal text, so a valid node is copied as it is; an
// invalid one is written with "-1" and no object name. Each function answers the place after what it wrote; with an output too short it measures.
// w is the width of an object name, 1 or more.

#![tactic(auto)]

ghost use Rattle.std.specs.Prelude.{◌≡◌, cond, ◌-◌, ◌≤◌, ◌<◌, length, take, drop};
ghost use Rattle.format.specs.Layout.{under};
ghost use Rattle.format.specs.Writer.{write_tree};
ghost use Rattle.format.specs.Requests.{invalid_tree};
ghost use Rattle.tree_write.specs.Written.{Room, NodeHere, as_is, made_invalid, NodeWritten, TreesWritten, WayWritten, WholeWritten};
ghost use Rattle.tree_write.specs.Steps.{StepBounds, Stepped};

use fields::{common, find};
use output::{put_byte, put_part};
use tree_nodes::node::{Node, read_node};

// A place of the data and one of the output, after some trees.
#[derive(Clone, Copy)]
struct Passed {
    place: usize,
    at: usize,
}

// A node made invalid: its name and NUL, "-1", and what there is from the space up to the LF.
fn put_invalid(d: &[u8], place: usize, node: Node, out: &mut [u8], at: usize, w: usize) -> usize
    requires { Room w d.now place at × NodeHere w d.now place node }
    ensures { NodeWritten w (made_invalid w) d.now place node out.old at out.new result }
{
    let count = node.nul + 1;
    let object = node.object;
    let space = find(d, count, b' ');
    let named = put_part(&mut *out, at, d, place, count);
    let minus = put_byte(&mut *out, named, b'-');
    let one = put_byte(&mut *out, minus, b'1');
    put_part(out, one, d, space, object)
}

// A node as it is: copied where it is valid.
fn put_node(d: &[u8], place: usize, node: Node, out: &mut [u8], at: usize, w: usize) -> usize
    requires { Room w d.now place at × NodeHere w d.now place node }
    ensures { NodeWritten w as_is d.now place node out.old at out.new result }
{
    match node.count {
        Some(_) => put_part(out, at, d, place, node.next),
        None => put_invalid(d, place, node, out, at, w),
    }
}

// So many trees one after another, each with all below it. Each node adds its subtrees to the trees that are still to write.
fn put_trees(d: &[u8], start: usize, n: u64, out: &mut [u8], at: usize, w: usize) -> Passed
    requires { Room w d.now start at × (n ≤ 4611686018427387904) }
    ensures { TreesWritten w d.now start n out.old at out.new result }
{
    let mut place = start;
    let mut end = at;
    let mut pending = n;
    // No count: each node adds those below it.
    while 0 < pending {
        let Some(node) = read_node(d, place, w) else {
            return Passed {
                place: d.len(),
                at: end,
            };
        };
        end = put_node(d, place, node, &mut *out, end, w);
        place = node.next;
        pending = pending - 1 + u64::from(node.subtrees);
    }
    Passed {
        place: place,
        at: end,
    }
}

// A place on the path to a name's directory: how many siblings are left there, how many trees of the levels above follow them, and the byte from
// which on the name is one in their directory.
#[derive(Clone, Copy)]
struct PathPlace {
    place: usize,
    at: usize,
    left: u32,
    later: u64,
    from: usize,
}

// Whether a name, from a byte on, is in the directory of the node at a place, whose name ends at nul.
fn is_under(d: &[u8], place: usize, nul: usize, name: &[u8], from: usize) -> bool
    requires { (place ≤ nul) × (nul ≤ length d.now) × (from ≤ length name.now) }
    ensures { result ≡ under (take (nul - place) (drop place d.now)) (drop from name.now) }
{
    let n = common(&d[place..nul], &name[from..]);
    if n < nul - place {
        return false;
    }
    if name.len() - from <= n {
        return false;
    }
    name[from + n] == b'/'
}

// One sibling. Where the name is in its directory it is made invalid, its subtrees are the next siblings, and the siblings after it follow later:
// the name is in no directory of theirs. Else it is written with all below it.
fn step(d: &[u8], name: &[u8], out: &mut [u8], way: PathPlace, w: usize) -> PathPlace
    requires { StepBounds w d.now name.now way × (0 < way.left) }
    ensures { Stepped w d.now name.now out.old way out.new result }
{
    let Some(node) = read_node(d, way.place, w) else {
        return PathPlace {
            left: 0,
            later: 0,
            ..way
        };
    };
    if is_under(d, way.place, node.nul, name, way.from) {
        let at = put_invalid(d, way.place, node, out, way.at, w);
        return PathPlace {
            place: node.next,
            at: at,
            left: node.subtrees,
            later: way.later + u64::from(way.left - 1),
            from: way.from + (node.nul - way.place) + 1,
        };
    }
    let passed = put_trees(d, way.place, 1, out, way.at, w);
    PathPlace {
        place: passed.place,
        at: passed.at,
        left: way.left - 1,
        ..way
    }
}

// k siblings at a place, of which those on the path to a name's directory are made invalid.
fn put_path(
    d: &[u8],
    start: usize,
    k: u32,
    name: &[u8],
    out: &mut [u8],
    at: usize,
    w: usize,
) -> usize
    requires { Room w d.now start at }
    ensures { WayWritten w name.now d.now start k out.old at out.new result }
{
    let mut way = PathPlace {
        place: start,
        at: at,
        left: k,
        later: 0,
        from: 0,
    };
    // No count: a step goes past a sibling, or down to the siblings of the next level.
    while 0 < way.left {
        way = step(d, name, &mut *out, way, w);
    }
    let passed = put_trees(d, way.place, way.later, out, way.at, w);
    passed.at
}

// The whole data, of which the root and the nodes on the path to a name's directory are made invalid.
fn put_invalid_tree(d: &[u8], name: &[u8], out: &mut [u8], at: usize, w: usize) -> usize
    requires { Room w d.now 0 at }
    ensures { WholeWritten w (λ t. write_tree (invalid_tree w name.now t)) d.now out.old at out.new result }
{
    let Some(root) = read_node(d, 0, w) else {
        return at;
    };
    let end = put_invalid(d, 0, root, &mut *out, at, w);
    put_path(d, root.next, root.subtrees, name, out, end, w)
}

// The whole data of a tree that was read, as it is or made invalid on the path to a name's directory.
pub fn put_tree(d: &[u8], touched: bool, name: &[u8], out: &mut [u8], at: usize, w: usize) -> usize
    requires { (length d.now ≤ 16777216) × (at ≤ 562949953421312) × (1 ≤ w) }
    ensures { WholeWritten w (λ t. write_tree (cond touched (invalid_tree w name.now t) t)) d.now out.old at out.new result }
{
    if touched {
        return put_invalid_tree(d, name, out, at, w);
    }
    let passed = put_trees(d, 0, 1, out, at, w);
    passed.at
}
