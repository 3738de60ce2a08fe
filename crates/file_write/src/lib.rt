// The file that is written: its body is measured, then written and appended with its checksum.

#![tactic(auto)]

pub mod body;

ghost use Rattle.std.specs.Prelude.{◌≡◌, ◌+◌, ◌≤◌, ◌<◌, length, take};
ghost use Rattle.entries.specs.Record.{entry_with};
ghost use Rattle.output.specs.Output.{Wrote};
ghost use Rattle.kinds.specs.Kinds.{width_of, hash_of};
ghost use Rattle.format.specs.Refusals.{numbered_at};
ghost use Rattle.file_write.specs.Bodies.{WriteReady};
ghost use Rattle.file_write.specs.Results.{Measured, FileWritten};

use crate::body::put_body;
use entries::record::Fields;
use entries_edit::Edit;
use entries_edit::rest::WriteEnd;
use file_read::Parts;
use format::{Fault, Refusal};
use output::put_part;
use versions::{is_barred, version_for};

// How long the body is in a version, and whether one of its entries needs the extended word. No part of it fits one byte, so nothing is written.
fn measure(
    b: &[u8],
    parts: Parts,
    work: &mut [u8],
    edit: Edit,
    fields: Fields,
    name: &[u8],
    version: u32,
    w: usize,
) -> WriteEnd
    requires { WriteReady w b.now work.old parts edit fields name.now × (1 ≤ w) × (w ≤ 32) }
    ensures { Measured w b.now parts work.old edit (entry_with w fields name.now) version work.new result }
{
    let mut none = [0u8; 1];
    put_body(b, parts, work, edit, fields, name, version, &mut none, w)
}

// The checksum of the first n bytes, after them.
fn append_checksum(out: &mut [u8], n: usize, kind: u32, w: usize) -> usize
    requires { (n ≤ length out.old) × (n ≤ 16777216) × (w ≡ width_of kind) × (w ≤ 32) }
    ensures { Wrote out.old n (hash_of kind (take n out.old)) out.new result }
{
    let checksum = kinds::digest_of(kind, &out[..n]);
    put_part(out, n, &checksum, 0, w)
}

// The file of a version, with an edit. w is the width of the kind's object names and of its checksum. It is measured first, in the version for entries that need the extended word, since only version 4 has other lengths: 21 where version 2 has no extended word, 2 where it is too long, 20 where the output is too small.
pub fn write(
    b: &[u8],
    parts: Parts,
    work: &mut [u8],
    asked: u32,
    edit: Edit,
    fields: Fields,
    name: &[u8],
    out: &mut [u8],
    kind: u32,
    w: usize,
) -> Result<usize, Fault>
    requires { WriteReady w b.now work.old parts edit fields name.now × (w ≡ width_of kind) × (1 ≤ w) × (w ≤ 32) }
    ensures { FileWritten w (hash_of kind) b.now parts work.old asked edit (entry_with w fields name.now) out.old work.new out.new (numbered_at result) }
{
    let sized = measure(
        b,
        parts,
        &mut *work,
        edit,
        fields,
        name,
        version_for(asked, true),
        w,
    );
    if is_barred(asked, sized.extended) {
        return Err(Refusal::NeedsVersion3.at(0));
    }
    let long = sized.at + w;
    if 16777216 < long {
        return Err(Refusal::TooLong.at(0));
    }
    if out.len() < long {
        return Err(Refusal::OutputShort.at(0));
    }
    let version = version_for(asked, sized.extended);
    let written = put_body(b, parts, work, edit, fields, name, version, &mut *out, w);
    Ok(append_checksum(out, written.at, kind, w))
}
