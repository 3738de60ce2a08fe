// The body of the file that is written, of the records of one that was read, changed or not: header, entries, extensions. Each function that
// writes answers the place after its part; with an output too short it measures.
ghost use Rattle.std.specs.Prelude.{◌≡◌, List, ◌++◌, ◌+◌, ◌≤◌, ◌<◌, length};
ghost use Rattle.std.proofs.Math.Option.{Option};
ghost use Rattle.format.specs.Bytes.{put32};
ghost use Rattle.format.specs.Records.{Tree, Undo};
ghost use Rattle.format.specs.Writer.{write_cache_tree, write_resolve_undo, write_header};
ghost use Rattle.extensions.specs.Found.{TreeFound, UndoFound};
ghost use Rattle.entries.specs.Record.{entry_with};
ghost use Rattle.output.specs.Output.{Wrote};
ghost use Rattle.entries_edit.specs.Edits.{passes};
ghost use Rattle.file_write.specs.Bodies.{changes, tree_after, count_after, SiblingsDiffer, WriteReady, BodyWritten};

use entries::record::Fields;
use entries_edit::Edit;
use entries_edit::rest::WriteEnd;
use extensions::Place;
use file_read::Parts;
use output::{put_32, put_bytes, put_part};

// Whether an edit changes entries. A match and no test of equality, so that a new kind of edit is looked at here.
fn is_change(edit: Edit) -> bool
    ensures { result ≡ changes edit }
{
    match edit {
        Edit::Keep => false,
        Edit::Put(_, _) => true,
        Edit::Remove(_) => true,
    }
}

// How many entries there are after an edit, of count.
fn count_after(edit: Edit, count: u32) -> u32
    requires { (passes edit ≤ count) × (count < 4294967295) }
    ensures { result ≡ count_after edit count }
{
    match edit {
        Edit::Keep => count,
        Edit::Put(_, there) => {
            if there {
                return count;
            }
            count + 1
        }
        Edit::Remove(_) => count - 1,
    }
}

// The header.
fn put_header(out: &mut [u8], version: u32, count: u32) -> usize
    ensures { Wrote out.old 0 (write_header version count) out.new result }
{
    let signed = put_bytes(&mut *out, 0, b"DIRC");
    let middle = put_32(&mut *out, signed, version);
    put_32(out, middle, count)
}

// What is before an extension's data: its signature and their size.
fn put_head(out: &mut [u8], at: usize, signature: &[u8], size: u32) -> usize
    requires { (at ≤ 562949970198528) × (length signature.now ≡ 4) }
    ensures { Wrote out.old at (signature.now ++ put32 size) out.new result }
{
    let middle = put_bytes(&mut *out, at, signature);
    put_32(out, middle, size)
}

// The cache tree, made invalid on the path to a name or not. Its size is known once its data are written.
fn put_cache_tree(
    b: &[u8],
    tree: Option<Place>,
    touched: bool,
    name: &[u8],
    out: &mut [u8],
    at: usize,
    w: usize,
) -> usize
    requires { (length b.now ≤ 16777216) × (at < 562949953421304) × ((o : Option Tree) × TreeFound w b.now o tree × SiblingsDiffer o) × (1 ≤ w) }
    ensures { ((o : Option Tree) → TreeFound w b.now o tree → SiblingsDiffer o → Wrote out.old at (write_cache_tree (tree_after w touched name.now o)) out.new result) × (result ≤ at + 16777224) × (length out.new ≡ length out.old) }
{
    let Some(place) = tree else {
        return at;
    };
    let from = place.at;
    let end = place.end;
    let content = at + 8;
    let after = tree_write::put_tree(&b[from..end], touched, name, &mut *out, content, w);
    put_head(out, at, b"TREE", (after - content) as u32);
    after
}

// The resolve-undo records, whose data are copied.
fn put_resolve_undo(b: &[u8], undo: Option<Place>, out: &mut [u8], at: usize, w: usize) -> usize
    requires { (length b.now ≤ 16777216) × (at ≤ 562949970198528) × ((o : Option (List Undo)) × UndoFound w b.now o undo) }
    ensures { ((o : Option (List Undo)) → UndoFound w b.now o undo → Wrote out.old at (write_resolve_undo o) out.new result) × (result ≤ at + 16777224) × (length out.new ≡ length out.old) }
{
    let Some(place) = undo else {
        return at;
    };
    let from = place.at;
    let end = place.end;
    let content = put_head(&mut *out, at, b"REUC", (end - from) as u32);
    put_part(out, content, b, from, end)
}

// The whole body.
pub fn put_body(
    b: &[u8],
    parts: Parts,
    work: &mut [u8],
    edit: Edit,
    fields: Fields,
    name: &[u8],
    version: u32,
    out: &mut [u8],
    w: usize,
) -> WriteEnd
    requires { WriteReady w b.now work.old parts edit fields name.now × (1 ≤ w) × (w ≤ 32) }
    ensures { BodyWritten w b.now parts work.old edit (entry_with w fields name.now) version out.old work.new out.new result }
{
    let start = put_header(&mut *out, version, count_after(edit, parts.count));
    let written = entries_edit::put_edited(
        b,
        parts.version,
        work,
        parts.count,
        edit,
        fields,
        name,
        version,
        &mut *out,
        start,
        w,
    );
    let middle = put_cache_tree(
        b,
        parts.found.tree,
        is_change(edit),
        name,
        &mut *out,
        written.at,
        w,
    );
    let end = put_resolve_undo(b, parts.found.undo, out, middle, w);
    WriteEnd {
        at: end,
        extended: written.extended,
    }
}
