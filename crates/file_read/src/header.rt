// What is tested of a whole file before its entries are read: length, signature, version and checksum.
ghost use Rattle.std.specs.Prelude.{◌≡◌, ◌≤◌, length};
ghost use Rattle.format.specs.Checksum.{checksum_in};
ghost use Rattle.answers.specs.Answers.{checksum_as};
ghost use Rattle.kinds.specs.Kinds.{width_of, hash_of};
ghost use Rattle.file_read.specs.Header.{is_version, HeaderOf};

use answers::Checksum;
use format::{Fault, Refusal};

// The most bytes that a file has.
pub const LARGEST: usize = 16777216;

// The version, the number of entries and what the checksum is.
#[derive(Clone, Copy)]
pub struct Opening {
    pub version: u32,
    pub count: u32,
    pub checksum: Checksum,
}

// Whether the format has the version v.
#[tactic(auto, unfolding(crate::specs::Header::is_version))]
fn version_ok(v: u32) -> bool
    ensures { result ≡ is_version v }
{
    2 <= v && v <= 4
}

// The check of the last w bytes.
fn checksum_in(file: &[u8], kind: u32, w: usize) -> Checksum
    requires { (w ≡ width_of kind) × (w ≤ 32) × (w ≤ length file.now) }
    ensures { result ≡ checksum_as (checksum_in w (hash_of kind) file.now) }
{
    let n = file.len() - w;
    let digest = kinds::digest_of(kind, &file[..n]);
    if fields::same(&file[n..], &digest[..w]) {
        return Checksum::Matches;
    }
    if fields::all_zero(file, n, file.len()) {
        return Checksum::LeftOut;
    }
    Checksum::Wrong
}

// The refusals 1 to 5 in their order, or what the header says. w is the width of the kind's object names and of its checksum.
pub fn read_header(file: &[u8], kind: u32, w: usize) -> Result<Opening, Fault>
    requires { (w ≡ width_of kind) × (w ≤ 32) }
    ensures { HeaderOf w (hash_of kind) file.now result }
{
    if file.len() < 12 + w {
        return Err(Refusal::TooShort.at(0));
    }
    if LARGEST < file.len() {
        return Err(Refusal::TooLong.at(0));
    }
    let signed = fields::same(&file[..4], b"DIRC");
    let version = fields::read32(file, 4);
    let known = version_ok(version);
    if !signed {
        return Err(Refusal::Signature.at(0));
    }
    if !known {
        return Err(Refusal::Version.at(0));
    }
    let checksum = checksum_in(file, kind, w);
    if checksum == Checksum::Wrong {
        return Err(Refusal::Checksum.at(file.len() - w));
    }
    Ok(Opening {
        version,
        count: fields::read32(file, 8),
        checksum,
    })
}
