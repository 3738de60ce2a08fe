// The calls on an index: check it, show an entry, a node of its cache tree, a resolve-undo record. Each takes the kind of object names; an unknown
// one is refused with 29, after 19 and before all of the file. A kind is a number and no enum, since a call answers for every number. w is the width
// of an object name.

#![tactic(auto)]

ghost use Rattle.std.specs.Prelude.{◌≡◌, List, [], cond, ℕ, ◌+◌, ◌≤◌, ◌<◌, length, take, drop, replicate, eqb, is_some, Some, IsSome, IfSome, MatchResult, option_map};
ghost use Rattle.std.proofs.Math.Option.{Option};
ghost use Rattle.std.proofs.Math.ListN.{get_elem?};
ghost use Rattle.format.specs.Records as F;
ghost use Rattle.format.specs.declared.Refusal.TheVariants.{NotThere};
ghost use Rattle.format.specs.Refusals.{fault_at, numbered_at};
ghost use Rattle.format.specs.Places.{body_in, entry_place, name_place, entry_name_place, data_in, node_start, node_place, undo_start, undo_place};
ghost use Rattle.kinds.specs.Kinds.{width_of, read_kind};
ghost use Rattle.entries.specs.Record.{wide_object};
ghost use Rattle.entries_run.specs.Steps.{EntriesRead, Room};
ghost use Rattle.extensions.specs.Found.{TreeFound, UndoFound};
ghost use Rattle.answers.specs.Answers.{cleared, pick, listed, items_of, check_answer, entry_answer, node_answer, undo_answer};
ghost use Rattle.index.specs.Calls.{EntryShows, NodeShows, UndoShows};

use answers::{EntryAnswer, NodeAnswer, Shown, Summary, UndoAnswer};
use extensions::Place;
use file_read::read_cleared;
use format::{Fault, Refusal};
use tree_nodes::node::{Node, read_node};
use tree_nodes::passes::find_node;

// The refusal of an item that is not there.
const NOT_THERE: Fault = Fault {
    refusal: Refusal::NotThere,
    place: 0,
};

// ---- the parts of an accepted file, shown

// Entry number k of a file of version v. Where all entries were read and k is below their number, it is found.
fn show_entry(file: &[u8], v: u32, work: &mut [u8], k: u32, w: usize) -> Result<EntryAnswer, Fault>
    requires { Room (body_in w file.now) work.old × (w ≤ 32) }
    ensures { (count : ℕ) (es : List F.Entry) (m : ℕ) → EntriesRead w v count (body_in w file.now) es m → k < count → EntryShows w (name_place w (entry_place w v k (body_in w file.now)) (body_in w file.now)) (pick (eqb v 4) (get_elem? es k)) file.now work.old work.new (numbered_at result) }
{
    let n = file.len() - w;
    let Ok(sought) = entries_run::seek_entry(&file[..n], v, &mut *work, k, w) else {
        fields::clear(work);
        return Err(NOT_THERE);
    };
    let step = sought.step;
    let fields = entries::record::fields_at(&file[..n], sought.at, step.flags, step.word, w);
    let len = step.next.len;
    if v == 4 {
        fields::clear_from(work, len);
        return Ok(EntryAnswer {
            shown: Shown::InWorkspace(len),
            fields,
        });
    }
    fields::clear(work);
    Ok(EntryAnswer {
        shown: Shown::InFile(step.next.start, len),
        fields,
    })
}

// The data of an extension that has item number k.
fn with_item(place: Option<Place>, k: u32) -> Result<Place, Fault>
    ensures { MatchResult result (λ p. (place ≡ Some p) × (k < p.count)) (λ f. (f ≡ fault_at NotThere 0) × IfSome place (λ p. p.count ≤ k)) }
{
    match place {
        Some(p) if k < p.count => Ok(p),
        _ => Err(NOT_THERE),
    }
}

// The object name of a node; zeros where its entry count is invalid.
fn node_object(d: &[u8], node: Node, w: usize) -> [u8; 32]
    requires { (IsSome node.count → node.object + w ≤ length d.now) × (w ≤ 32) }
    ensures { result ≡ cond (is_some node.count) (wide_object (take w (drop node.object d.now))) (replicate 32 0) }
{
    match node.count {
        Some(_) => entries::record::object_at(d, node.object, w),
        None => [0u8; 32],
    }
}

// Node number k of the cache tree. Where there is one, it reads well again.
fn show_node(file: &[u8], tree: Option<Place>, k: u32, w: usize) -> Result<NodeAnswer, Fault>
    requires { ((o : Option F.Tree) × TreeFound w (body_in w file.now) o tree) × (w ≤ 32) }
    ensures { (o : Option F.Tree) (at : ℕ) → TreeFound w (body_in w file.now) o tree → IfSome tree (λ p. p.at + node_start w k (data_in p.at (body_in w file.now)) ≡ at) → NodeShows w at (listed (items_of o) k) file.now (numbered_at result) }
{
    let tree = with_item(tree, k)?;
    let from = tree.at;
    let data = &file[from..tree.end];
    let found = find_node(data, k, w);
    let place = found.place;
    let Some(node) = read_node(data, place, w) else {
        return Err(NOT_THERE);
    };
    Ok(NodeAnswer {
        shown: Shown::InFile(from + place, node.nul - place),
        level: found.level,
        count: node.count,
        subtrees: node.subtrees,
        object: node_object(data, node, w),
    })
}

// Record number k of the resolve-undo records. Where there is one, it reads well again.
fn show_record(file: &[u8], undo: Option<Place>, k: u32, w: usize) -> Result<UndoAnswer, Fault>
    requires { ((o : Option (List F.Undo)) × UndoFound w (body_in w file.now) o undo) × (1 ≤ w) × (w ≤ 32) }
    ensures { (o : Option (List F.Undo)) (at : ℕ) → UndoFound w (body_in w file.now) o undo → IfSome undo (λ p. p.at + undo_start w 0 k [] (data_in p.at (body_in w file.now)) ≡ at) → UndoShows w at (listed o k) file.now (numbered_at result) }
{
    let undo = with_item(undo, k)?;
    let from = undo.at;
    let data = &file[from..undo.end];
    let place = resolve_undo::find_undo(data, k, w);
    let Some(s) = resolve_undo::show_undo(data, place, w) else {
        return Err(NOT_THERE);
    };
    let first = s.first.object;
    let second = s.second.object;
    let third = s.third.object;
    Ok(UndoAnswer {
        shown: Shown::InFile(from + s.path, s.path_length),
        first_mode: s.first.mode,
        second_mode: s.second.mode,
        third_mode: s.third.mode,
        first,
        second,
        third,
    })
}

// How many items an extension has.
fn count_of(place: Option<Place>) -> Option<u32>
    ensures { result ≡ option_map (λ p. p.count) place }
{
    place.map(|p| p.count)
}

// ---- the calls

// Whether the file is an index, and what it has.
pub fn check(kind: u32, file: &[u8], work: &mut [u8]) -> Result<Summary, Fault>
    ensures { (numbered_at result ≡ check_answer work.old (read_kind kind file.now)) × (work.new ≡ cleared work.old) }
{
    let parts = read_cleared(file, work, kind)?;
    Ok(Summary {
        version: parts.version,
        entries: parts.count,
        end: parts.end,
        nodes: count_of(parts.found.tree),
        records: count_of(parts.found.undo),
        checksum: parts.checksum,
    })
}

// Entry number k. A name of version 4 is left at the start of the workspace.
pub fn entry(kind: u32, file: &[u8], work: &mut [u8], k: u32) -> Result<EntryAnswer, Fault>
    ensures { EntryShows (width_of kind) (entry_name_place (width_of kind) k file.now) (entry_answer work.old k (read_kind kind file.now)) file.now work.old work.new (numbered_at result) }
{
    let parts = read_cleared(file, &mut *work, kind)?;
    if parts.count <= k {
        return Err(NOT_THERE);
    }
    show_entry(file, parts.version, work, k, kinds::width_of(kind))
}

// Node number k of the cache tree.
pub fn tree_node(kind: u32, file: &[u8], work: &mut [u8], k: u32) -> Result<NodeAnswer, Fault>
    ensures { NodeShows (width_of kind) (node_place (width_of kind) k file.now) (node_answer work.old k (read_kind kind file.now)) file.now (numbered_at result) × (work.new ≡ cleared work.old) }
{
    let found = read_cleared(file, work, kind)?.found;
    show_node(file, found.tree, k, kinds::width_of(kind))
}

// Resolve-undo record number k.
pub fn undo_record(kind: u32, file: &[u8], work: &mut [u8], k: u32) -> Result<UndoAnswer, Fault>
    ensures { UndoShows (width_of kind) (undo_place (width_of kind) k file.now) (undo_answer work.old k (read_kind kind file.now)) file.now (numbered_at result) × (work.new ≡ cleared work.old) }
{
    let found = read_cleared(file, work, kind)?.found;
    show_record(file, found.undo, k, kinds::width_of(kind))
}
