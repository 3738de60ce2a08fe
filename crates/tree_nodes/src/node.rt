// One node of the tree: its name, its entry count, its number of subtrees and its object name. w is the width of an object name.
ghost use Rattle.std.specs.Prelude.{◌≡◌, ◌+◌, ◌-◌, ◌≤◌, ◌<◌, length, drop};
ghost use Rattle.format.specs.Reader.{count_in, read_count, read_subtrees, read_node};
ghost use Rattle.tree_nodes.specs.Answers.{count_of, object_after, count_at, subtrees_at, node_at};

use crate::number::read_number;
use fields::find;

// A node: the place of the NUL after its name, its entry count, none where that is invalid, its number of subtrees, the place of its
// object name, which is there where the count is valid, and the place after it all.
#[derive(Clone, Copy)]
pub struct Node {
    pub nul: usize,
    pub count: Option<u32>,
    pub subtrees: u32,
    pub object: usize,
    pub next: usize,
}

// The entry count that a text says, none where it says "invalid".
fn count_in(t: &[u8]) -> Option<Option<u32>>
    ensures { result ≡ count_of (count_in t.now) }
{
    if t.len() == 0 {
        return None;
    }
    if t[0] == b'-' {
        let u = &t[1..];
        let n = read_number(u, 2147483648)?;
        if n == 0 {
            return None;
        }
        return Some(None);
    }
    let n = read_number(t, 2147483647)?;
    Some(Some(n))
}

// The entry count at a place, which a space ends, and the place after that.
pub fn read_count(d: &[u8], at: usize) -> Option<(Option<u32>, usize)>
    requires { at ≤ length d.now }
    ensures { result ≡ count_at at (read_count 0 (drop at d.now)) }
{
    let e = find(d, at, b' ');
    if e == d.len() {
        return None;
    }
    let count = count_in(&d[at..e])?;
    Some((count, e + 1))
}

// The number of subtrees at a place, which LF ends, and the place after that.
pub fn read_subtrees(d: &[u8], at: usize) -> Option<(u32, usize)>
    requires { at ≤ length d.now }
    ensures { result ≡ subtrees_at at (read_subtrees 0 (drop at d.now)) }
{
    let e = find(d, at, b'\n');
    if e == d.len() {
        return None;
    }
    let subtrees = read_number(&d[at..e], 2147483647)?;
    Some((subtrees, e + 1))
}

// The length of the object name after an entry count.
fn object_length(count: Option<u32>, w: usize) -> usize
    ensures { result ≡ object_after w count }
{
    match count {
        Some(_) => w,
        None => 0,
    }
}

// The node at a place.
pub fn read_node(d: &[u8], at: usize, w: usize) -> Option<Node>
    requires { at ≤ length d.now }
    ensures { result ≡ node_at w at (read_node w 0 (drop at d.now)) }
{
    let nul = find(d, at, 0);
    if nul == d.len() {
        return None;
    }
    let (count, middle) = read_count(d, nul + 1)?;
    let (subtrees, object) = read_subtrees(d, middle)?;
    let n = object_length(count, w);
    if d.len() - object < n {
        return None;
    }
    Some(Node {
        nul: nul,
        count: count,
        subtrees: subtrees,
        object: object,
        next: object + n,
    })
}
