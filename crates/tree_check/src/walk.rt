// The walk over the entries: what it tests of the counts of a cache tree.
ghost use Rattle.std.specs.Prelude.{◌≡◌, true, cond, ◌&&◌, ◌||◌, ◌-◌, ◌≤◌, ◌<◌, eqb, leb, ltb};
ghost use Rattle.tree_search.specs.Table.{Known};
ghost use Rattle.tree_check.specs.Nodes.{agrees_with};
ghost use Rattle.tree_check.specs.Steps.{entered, WalkReady, Taken, Walked};

use crate::look::look_up;
use crate::survey::weight;
use entries_directory::{Front, pass, pass_files, stays};
use tree_nodes::node::{Node, read_node};
use tree_table::Table;

// The most levels that a tree has, the root's included.
const LEVELS: usize = 128;

// A directory that was entered: the place of its node's subtrees and their number, its count, none where that is invalid, the length of the directory's name
// with its last "/", and how many entries were ahead when it was entered. The walk holds one for each level, so numbers have 32 bits.
#[derive(Clone, Copy)]
pub struct Directory {
    pub at: u32,
    pub k: u32,
    pub count: Option<u32>,
    pub q: u32,
    pub ahead: u32,
}

// A part of a directory's entries: it was passed, whether its test holds, and what is ahead of it; or it is in a directory that is entered. Neither is a
// refusal, so this is no Result.
#[derive(Clone, Copy)]
pub enum Part {
    Passed(bool, Front),
    Entered(Directory),
}

// The directory of a node, with a name of q bytes. Its entries are ahead.
pub(crate) fn enter(node: Node, q: usize, s: Front) -> Directory
    requires { (node.next < 4294967296) × (q < 4294967296) × (s.ahead < 4294967296) }
    ensures { result ≡ entered node q s }
{
    Directory {
        at: node.next as u32,
        k: node.subtrees,
        count: node.count,
        q: q as u32,
        ahead: s.ahead as u32,
    }
}

// Whether the node of a directory, where it is valid, counts the entries that were passed since it was entered.
pub(crate) fn agrees(dir: Directory, s: Front) -> bool
    requires { s.ahead ≤ dir.ahead }
    ensures { result ≡ agrees_with dir.count (dir.ahead - s.ahead) }
{
    match dir.count {
        Some(count) => count as usize == dir.ahead as usize - s.ahead,
        None => true,
    }
}

// Whether the first entry ahead is in a directory: the directory was just entered, or the name has its first bytes in common with the one before.
fn is_in(dir: Directory, s: Front) -> bool
    ensures { result ≡ (eqb s.ahead dir.ahead || (ltb 0 s.ahead && leb dir.q s.common)) }
{
    s.ahead == dir.ahead as usize || stays(s, dir.q as usize)
}

// One part of a directory's entries: the files ahead, where the first is one; else all in the directory of its next component, which are passed here
// where that has no node.
fn take_part(
    d: &[u8],
    dir: Directory,
    level: u32,
    b: &[u8],
    v: u32,
    work: &mut [u8],
    s: Front,
    t: &mut Table,
    w: usize,
) -> Part
    requires { WalkReady d.now dir b.now work.old s × Known w d.now t.old × (w ≤ 32) }
    ensures { Taken w d.now dir b.now v work.old s work.new result × Known w d.now t.new }
{
    let at = dir.at as usize;
    let q = dir.q as usize;
    let Some(below) = look_up(d, at, dir.k, level, b, v, &work[..], q, s, t, w) else {
        return Part::Passed(true, pass_files(b, v, work, s, q, w));
    };
    let Some(place) = below.node else {
        return Part::Passed(dir.count.is_none(), pass(b, v, work, s, below.end, w));
    };
    // No tree that was read has no node there.
    let Some(node) = read_node(d, place, w) else {
        return Part::Passed(
            false,
            Front {
                ahead: 0,
                common: 0,
                ..s
            },
        );
    };
    Part::Entered(enter(node, below.end, s))
}

// All entries ahead, of which the first is in the root's directory: whether all tests hold, and expected is the number of nodes below the root with a
// count of at least 1 that were found. A directory is left where the next entry is not in it; those above it are held.
pub(crate) fn walk_directories(
    d: &[u8],
    root: Directory,
    expected: u32,
    b: &[u8],
    v: u32,
    work: &mut [u8],
    s: Front,
    t: &mut Table,
    w: usize,
) -> bool
    requires { WalkReady d.now root b.now work.old s × Known w d.now t.old × (root.q ≡ 0) × (root.ahead ≡ s.ahead) × (w ≤ 32) }
    ensures { Walked w d.now root expected b.now v work.old s work.new result }
{
    let mut above = [root; LEVELS];
    let mut level: u32 = 0;
    let mut dir = root;
    let mut front = s;
    let mut ok = true;
    let mut found: u64 = 0;
    loop {
        if !is_in(dir, front) {
            ok &= agrees(dir, front);
            if level == 0 {
                return ok & (found == expected as u64);
            }
            found += u64::from(weight(dir.count));
            level -= 1;
            dir = above[level as usize];
            continue;
        }
        match take_part(d, dir, level, b, v, work, front, t, w) {
            Part::Passed(holds, next) => {
                front = next;
                ok &= holds;
            }
            // No tree that was read gets here.
            Part::Entered(_) if level as usize + 1 == LEVELS => return false,
            Part::Entered(below) => {
                above[level as usize] = dir;
                level += 1;
                dir = below;
            }
        }
    }
}
