// All extensions of a body: which there are, where the data of the known ones are, or the first refusal.

#![tactic(auto)]

ghost use Rattle.std.specs.Prelude.{◌≡◌, ◌+◌, ◌≤◌, length, drop, is_some};
ghost use Rattle.format.specs.Layout.{cache_tree, resolve_undo};
ghost use Rattle.format.specs.Reader.{read_tree, read_extension};
ghost use Rattle.entries_run.specs.Steps.{Room};
ghost use Rattle.extensions.specs.Heads.{part, undos_in, known, Headed, Inside};
ghost use Rattle.extensions.specs.Found.{seen_of};
ghost use Rattle.extensions.specs.Steps.{OneAnswered, OneInside, ExtensionPassed, ExtensionsPassed};

use format::{Fault, Refusal};
use tree_check::counts::counts_ok;
use tree_table::NUMBERS;

// What an extension is, by its signature.
#[derive(Clone, Copy)]
enum Kind {
    Tree,
    Undo,
    Other,
}

// The kind of an extension, and the place after its data.
#[derive(Clone, Copy)]
struct Head {
    kind: Kind,
    end: usize,
}

// Where the data of an extension are in the body, and how many nodes or records they have.
#[derive(Clone, Copy)]
pub struct Place {
    pub at: usize,
    pub end: usize,
    pub count: u32,
}

// What was found: the cache tree and the resolve-undo records.
#[derive(Clone, Copy)]
pub struct Found {
    pub tree: Option<Place>,
    pub undo: Option<Place>,
}

// The signature and the size of the extension at a place. The data begin 8 bytes further on.
fn read_head(b: &[u8], at: usize) -> Result<Head, Refusal>
    requires { at ≤ length b.now }
    ensures { Headed b.now at result }
{
    let left = b.len() - at;
    if left < 8 {
        return Err(Refusal::ExtensionCut);
    }
    let sized = at + 4;
    let size = fields::read32(b, sized) as usize;
    if left - 8 < size {
        return Err(Refusal::ExtensionCut);
    }
    if !b[at].is_ascii_uppercase() {
        return Err(Refusal::ExtensionUnknown);
    }
    let end = sized + 4 + size;
    if fields::same(&b[at..sized], b"TREE") {
        return Ok(Head {
            kind: Kind::Tree,
            end,
        });
    }
    if fields::same(&b[at..sized], b"REUC") {
        return Ok(Head {
            kind: Kind::Undo,
            end,
        });
    }
    Ok(Head {
        kind: Kind::Other,
        end,
    })
}

// The resolve-undo extension at a place, whose data end at end.
fn add_undo(
    b: &[u8],
    at: usize,
    end: usize,
    found: Found,
    w: usize,
) -> Result<(usize, Found), Refusal>
    requires { Inside b.now at end × (length b.now ≤ 16777216) × (1 ≤ w) × (w ≤ 32) }
    ensures { OneAnswered w b.now at found (known (is_some found.undo) at (undos_in w at (part b.now (at + 8) end)) resolve_undo) result × OneInside b.now at result }
{
    if found.undo.is_some() {
        return Err(Refusal::ExtensionTwice);
    }
    let from = at + 8;
    let Some(count) = resolve_undo::read_undos(&b[from..end], w) else {
        return Err(Refusal::UndoMalformed);
    };
    let undo = Some(Place {
        at: from,
        end,
        count,
    });
    Ok((end, Found { undo, ..found }))
}

// The cache-tree extension at a place, whose data end at end. v and count are the version and the number of entries of the body.
fn add_tree(
    b: &[u8],
    at: usize,
    end: usize,
    found: Found,
    v: u32,
    count: u32,
    work: &mut [u8],
    w: usize,
) -> Result<(usize, Found), Refusal>
    requires { Inside b.now at end × Room b.now work.old × (w ≤ 32) }
    ensures { ExtensionPassed w (λ ns. known (is_some found.tree) at (read_tree w ns at (part b.now (at + 8) end)) cache_tree) v count b.now work.old at found work.new result }
{
    if found.tree.is_some() {
        return Err(Refusal::ExtensionTwice);
    }
    let from = at + 8;
    let mut table = [0u32; NUMBERS];
    let Some(nodes) = cache_tree::read_tree(&b[from..end], &mut table, w) else {
        return Err(Refusal::TreeMalformed);
    };
    if !counts_ok(&b[from..end], b, v, count, work, &mut table, w) {
        return Err(Refusal::TreeCount);
    }
    let tree = Some(Place {
        at: from,
        end,
        count: nodes,
    });
    Ok((end, Found { tree, ..found }))
}

// The extension at a place: the place after it, and what has been found with it.
fn read_extension(
    b: &[u8],
    at: usize,
    found: Found,
    v: u32,
    count: u32,
    work: &mut [u8],
    w: usize,
) -> Result<(usize, Found), Refusal>
    requires { (at ≤ length b.now) × Room b.now work.old × (1 ≤ w) × (w ≤ 32) }
    ensures { ExtensionPassed w (λ ns. read_extension w ns (seen_of found) at (drop at b.now)) v count b.now work.old at found work.new result }
{
    let head = read_head(b, at)?;
    match head.kind {
        Kind::Tree => add_tree(b, at, head.end, found, v, count, work, w),
        Kind::Undo => add_undo(b, at, head.end, found, w),
        Kind::Other => Ok((head.end, found)),
    }
}

// All extensions of a body, from a place on. v and count are the version and the number of entries.
pub fn read_extensions(
    b: &[u8],
    at: usize,
    v: u32,
    count: u32,
    work: &mut [u8],
    w: usize,
) -> Result<Found, Fault>
    requires { (at ≤ length b.now) × Room b.now work.old × (1 ≤ w) × (w ≤ 32) }
    ensures { ExtensionsPassed w v count b.now work.old at work.new result }
{
    let mut place = at;
    let mut found = Found {
        tree: None,
        undo: None,
    };
    // No count: each extension says where the next one begins.
    while place < b.len() {
        let (next, more) = read_extension(b, place, found, v, count, &mut *work, w).map_err(
            |e| e.at(place),
        )?;
        place = next;
        found = more;
    }
    Ok(found)
}
