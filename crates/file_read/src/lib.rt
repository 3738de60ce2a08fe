// The whole file: its header, its entries, its extensions; and what an accepted one has.

#![tactic(auto)]

pub mod header;

ghost use Rattle.std.specs.Prelude.{◌≡◌, ◌≤◌, length};
ghost use Rattle.format.specs.Bytes.{be32};
ghost use Rattle.format.specs.Checksum as F;
ghost use Rattle.format.specs.Reader.{read_body};
ghost use Rattle.format.specs.Places.{body_in};
ghost use Rattle.kinds.specs.Kinds.{width_of, read_kind};
ghost use Rattle.fields.specs.Workspace.{Frame};
ghost use Rattle.entries_run.specs.Steps.{Room};
ghost use Rattle.answers.specs.Answers.{checksum_as, in_room, cleared};
ghost use Rattle.file_read.specs.Contents.{WholeOf};

use crate::header::read_header;
use answers::Checksum;
use extensions::Found;
use format::{Fault, Refusal};

// What an accepted file has; end is the byte where entries end.
#[derive(Clone, Copy)]
pub struct Parts {
    pub version: u32,
    pub count: u32,
    pub end: usize,
    pub found: Found,
    pub checksum: Checksum,
}

// The body b of version v with count entries, of a file whose checksum is known.
fn read_body(
    b: &[u8],
    v: u32,
    count: u32,
    work: &mut [u8],
    w: usize,
    checksum: Checksum,
) -> Result<Parts, Fault>
    requires { Room b.now work.old × (count ≡ be32 b.now 8) × (1 ≤ w) × (w ≤ 32) }
    ensures { ((sum : F.Checksum) → checksum ≡ checksum_as sum → WholeOf w (read_body w v sum b.now) b.now result) × Frame work.old work.new }
{
    let end = entries_run::run_entries(b, v, &mut *work, count, w)?;
    let found = extensions::read_extensions(b, end, v, count, work, w)?;
    Ok(Parts {
        version: v,
        count,
        end,
        found,
        checksum,
    })
}

// The whole file. An unknown kind is refused with 29.
pub fn read_whole(file: &[u8], work: &mut [u8], kind: u32) -> Result<Parts, Fault>
    requires { 8192 ≤ length work.old }
    ensures { WholeOf (width_of kind) (read_kind kind file.now) (body_in (width_of kind) file.now) result × Frame work.old work.new }
{
    if !kinds::is_known(kind) {
        return Err(Refusal::Kind.at(0));
    }
    let w = kinds::width_of(kind);
    let header = read_header(file, kind, w)?;
    let n = file.len() - w;
    read_body(
        &file[..n],
        header.version,
        header.count,
        work,
        w,
        header.checksum,
    )
}

// The same for any workspace, which is cleared afterwards; one below 8,192 bytes is refused with 19 and left as it is.
pub fn read_cleared(file: &[u8], work: &mut [u8], kind: u32) -> Result<Parts, Fault>
    ensures { WholeOf (width_of kind) (in_room work.old (read_kind kind file.now)) (body_in (width_of kind) file.now) result × (work.new ≡ cleared work.old) }
{
    if work.len() < fields::LONGEST {
        return Err(Refusal::WorkspaceShort.at(0));
    }
    let whole = read_whole(file, &mut *work, kind);
    fields::clear_from(work, 0);
    whole
}
