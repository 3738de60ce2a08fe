// Whether the counts of a cache tree are right: refusal 16.
ghost use Rattle.std.specs.Prelude.{◌≡◌, ◌≤◌, length};
ghost use Rattle.entries_run.specs.Steps.{Room};
ghost use Rattle.tree_check.specs.Answers.{RootWalked, CountsTold};

use crate::survey::survey_trees;
use crate::walk::{agrees, enter, walk_directories};
use entries_directory::{Front, advance};
use entries_run::first;
use tree_nodes::node::{Node, read_node};
use tree_search::table::reset;
use tree_table::Table;

// What the walk over all entries tests of the root and of what is below it. expected is the number of nodes below it with a count of at least 1.
fn walk_root(
    d: &[u8],
    root: Node,
    expected: u32,
    b: &[u8],
    v: u32,
    count: u32,
    work: &mut [u8],
    t: &mut Table,
    w: usize,
) -> bool
    requires { (root.next ≤ length d.now) × (length d.now ≤ 16777216) × Room b.now work.old × (length t.old ≡ 3126) × (w ≤ 32) }
    ensures { RootWalked w d.now root expected b.now v count work.old work.new result }
{
    let start = Front {
        cursor: first(),
        ahead: count as usize + 1,
        common: 0,
    };
    let front = advance(b, v, work, start, w);
    let dir = enter(root, 0, front);
    if front.ahead == 0 {
        return agrees(dir, front) & (expected == 0);
    }
    reset(t);
    walk_directories(d, dir, expected, b, v, work, front, t, w)
}

// Whether the counts of the cache tree d are right for the first count entries of the body b of version v. Of what the array t holds only its seed is used.
pub fn counts_ok(
    d: &[u8],
    b: &[u8],
    v: u32,
    count: u32,
    work: &mut [u8],
    t: &mut Table,
    w: usize,
) -> bool
    requires { (length d.now ≤ 16777216) × Room b.now work.old × (length t.old ≡ 3126) × (w ≤ 32) }
    ensures { CountsTold w d.now b.now v count work.old work.new result }
{
    let Some(root) = read_node(d, 0, w) else {
        return false;
    };
    let valid = root.count.is_some();
    let Some(expected) = survey_trees(d, root.next, root.subtrees, valid, w) else {
        return false;
    };
    walk_root(d, root, expected, b, v, count, work, t, w)
}
