// The calls that write an index: rewrite it in a version, put one record, remove one name and stage. kind says which object names it has:
// 1 is SHA-1, 2 is SHA-256, any other is refused with 29. Kinds and versions that are asked for are numbers and no enums, since a call answers for
// every number.

#![tactic(auto)]

ghost use Rattle.std.specs.Prelude.{◌≡◌, [], ◌∷◌, true, ℕ, ◌≤◌, length};
ghost use Rattle.format.specs.Bytes.{fit32};
ghost use Rattle.format.specs.Reading.{good};
ghost use Rattle.format.specs.Reader.{Contents};
ghost use Rattle.format.specs.Refusals.{numbered_at, refusal_number};
ghost use Rattle.format.specs.Requests.{put_record, remove_record, writing};
ghost use Rattle.kinds.specs.Kinds.{width_of, hash_of, read_kind};
ghost use Rattle.answers.specs.Answers.{in_room, cleared};
ghost use Rattle.entries.specs.Record.{entry_with};
ghost use Rattle.answers.specs.Writing.{requested, rewrite_answer, put_answer, remove_answer};
ghost use Rattle.file_write.specs.Bodies.{changed};
ghost use Rattle.index_write.specs.Calls.{Writes, Saves, Typed, Opened, Planned, request_of, RequestFits, PlanFor, record_number};
ghost use Rattle.entries.specs.declared.record.Fields.{Fields};
ghost use Rattle.index_write.specs.declared.Request.TheVariants as Q;

use entries::record::{Fields, no_fields};
use entries_edit::Edit;
use entries_place::find_place;
use file_read::{Parts, read_cleared};
use format::{Fault, Refusal};
use versions::asked_ok;

// What is asked for: the records as they are, with one put, or without the entry of a name and this stage.
#[derive(Clone, Copy)]
pub enum Request {
    Rewrite,
    Put,
    Remove(u32),
}

// ---- the tests of a request

// Five numbers of 32 bits.
fn five_typed(a: u32, b: u32, c: u32, d: u32, e: u32)
    ensures { fit32 (a ∷ b ∷ c ∷ d ∷ e ∷ []) ≡ true }
{}

// The field for an object name.
fn object_typed(object: &[u8])
    requires { length object.now ≡ 32 }
    ensures { length object.now ≡ 32 }
{}

// What its type says of a record. Nothing is done: it is said for the proof that a record that was put is read back.
fn typed(fields: Fields)
    ensures { Typed fields }
{
    five_typed(
        fields.ctime_seconds,
        fields.ctime_nanoseconds,
        fields.mtime_seconds,
        fields.mtime_nanoseconds,
        fields.dev,
    );
    five_typed(fields.ino, fields.mode, fields.uid, fields.gid, fields.size);
    let object = fields.object;
    object_typed(&object);
}

// Whether a record that is to be put is sound.
#[tactic(auto, unfolding(crate::specs::Calls::record_number))]
fn test_record(fields: Fields, name: &[u8]) -> Result<(), Refusal>
    ensures { refusal_number result ≡ record_number fields name.now }
{
    if !entries::mode_ok(fields.mode) {
        return Err(Refusal::EntryMode);
    }
    if 4 <= fields.stage {
        return Err(Refusal::EntryFlags);
    }
    if !fields::name_ok(name) {
        return Err(Refusal::EntryName);
    }
    Ok(())
}

// ---- the requests on a file that was read

// The file with an edit, written; the workspace is cleared.
fn write_edited(
    kind: u32,
    file: &[u8],
    parts: Parts,
    work: &mut [u8],
    out: &mut [u8],
    asked: u32,
    edit: Edit,
    fields: Fields,
    name: &[u8],
) -> Result<usize, Fault>
    requires { Planned kind file.now work.old parts edit fields name.now }
    ensures { (c : Contents) (m : ℕ) → read_kind kind file.now ≡ good c m → Writes (writing (width_of kind) (hash_of kind) asked (length out.old) (changed (width_of kind) edit (entry_with (width_of kind) fields name.now) c.records)) out.old work.old out.new work.new (numbered_at result) }
{
    let w = kinds::width_of(kind);
    let n = file.len() - w;
    let written = file_write::write(
        &file[..n],
        parts,
        &mut *work,
        asked,
        edit,
        fields,
        name,
        out,
        kind,
        w,
    );
    fields::clear(work);
    written
}

// What a sound record needs to be put: the place of its name and stage; 11 where it would bring stage 0 together with another stage of the name.
fn plan_put(
    kind: u32,
    file: &[u8],
    parts: Parts,
    work: &mut [u8],
    name: &[u8],
    fields: Fields,
) -> Result<Edit, Refusal>
    requires { Opened kind file.now work.old parts }
    ensures { PlanFor kind file.now work.old parts Q.Put name.now fields work.new result }
{
    test_record(fields, name)?;
    let w = kinds::width_of(kind);
    let n = file.len() - w;
    let place = find_place(
        &file[..n],
        parts.version,
        work,
        parts.count,
        name,
        fields.stage,
        w,
    );
    if place.mixed {
        return Err(Refusal::EntryOrder);
    }
    Ok(Edit::Put(place.before, place.there))
}

// The place of the entry that is to be removed; 18 where there is none.
fn plan_remove(
    kind: u32,
    file: &[u8],
    parts: Parts,
    work: &mut [u8],
    name: &[u8],
    stage: u32,
) -> Result<Edit, Refusal>
    requires { Opened kind file.now work.old parts }
    ensures { (fields : Fields) → fields.stage ≤ 3 → PlanFor kind file.now work.old parts (Q.Remove stage) name.now fields work.new result }
{
    let w = kinds::width_of(kind);
    let n = file.len() - w;
    let place = find_place(&file[..n], parts.version, work, parts.count, name, stage, w);
    if place.there {
        return Ok(Edit::Remove(place.before));
    }
    Err(Refusal::NotThere)
}

// What a request changes in a file that was read, or why not.
fn plan_for(
    kind: u32,
    file: &[u8],
    parts: Parts,
    work: &mut [u8],
    request: Request,
    name: &[u8],
    fields: Fields,
) -> Result<Edit, Refusal>
    requires { Opened kind file.now work.old parts × RequestFits request name.now fields }
    ensures { PlanFor kind file.now work.old parts request name.now fields work.new result }
{
    match request {
        Request::Rewrite => Ok(Edit::Keep),
        Request::Put => plan_put(kind, file, parts, work, name, fields),
        Request::Remove(stage) => plan_remove(kind, file, parts, work, name, stage),
    }
}

// A request on a file that was read. The workspace is cleared.
fn save_read(
    kind: u32,
    file: &[u8],
    parts: Parts,
    work: &mut [u8],
    out: &mut [u8],
    asked: u32,
    request: Request,
    name: &[u8],
    fields: Fields,
) -> Result<usize, Fault>
    requires { Opened kind file.now work.old parts × (work.old ≡ cleared work.old) × RequestFits request name.now fields }
    ensures { Writes (requested (read_kind kind file.now) (request_of kind request name.now fields asked (length out.old))) out.old work.old out.new work.new (numbered_at result) }
{
    if !asked_ok(asked) {
        return Err(Refusal::Version.at(0));
    }
    let plan = plan_for(kind, file, parts, &mut *work, request, name, fields);
    match plan {
        Ok(edit) => write_edited(kind, file, parts, work, out, asked, edit, fields, name),
        Err(refusal) => {
            fields::clear(work);
            Err(refusal.at(0))
        }
    }
}

// A request on a file: what rewrite, put and remove have in common.
fn save(
    kind: u32,
    file: &[u8],
    work: &mut [u8],
    out: &mut [u8],
    asked: u32,
    request: Request,
    name: &[u8],
    fields: Fields,
) -> Result<usize, Fault>
    requires { RequestFits request name.now fields }
    ensures { Writes (requested (in_room work.old (read_kind kind file.now)) (request_of kind request name.now fields asked (length out.old))) out.old work.old out.new work.new (numbered_at result) }
{
    let parts = read_cleared(file, &mut *work, kind)?;
    save_read(kind, file, parts, work, out, asked, request, name, fields)
}

// ---- the calls

// The same records in a version: 2, 3, 4; 0 for 4; or 1 for the lowest, which is 2 where no record of the result needs the extended word, else 3.
pub fn rewrite(
    kind: u32,
    file: &[u8],
    work: &mut [u8],
    out: &mut [u8],
    asked: u32,
) -> Result<usize, Fault>
    ensures { Saves kind file.now asked (λ q. q) (rewrite_answer (width_of kind) (hash_of kind) work.old asked (length out.old) (read_kind kind file.now)) out.old work.old out.new work.new (numbered_at result) }
{
    save(
        kind,
        file,
        work,
        out,
        asked,
        Request::Rewrite,
        b"",
        no_fields(),
    )
}

// The records with this one in place of the entry of its name and stage, or inserted. 11 where stage 0 would come together with another stage of
// the name: a conflict is settled by removing its stages first.
pub fn put(
    kind: u32,
    file: &[u8],
    work: &mut [u8],
    out: &mut [u8],
    asked: u32,
    name: &[u8],
    fields: Fields,
) -> Result<usize, Fault>
    ensures { Saves kind file.now asked (put_record (width_of kind) (entry_with (width_of kind) fields name.now)) (put_answer (width_of kind) (hash_of kind) work.old asked (entry_with (width_of kind) fields name.now) (length out.old) (read_kind kind file.now)) out.old work.old out.new work.new (numbered_at result) }
{
    typed(fields);
    save(kind, file, work, out, asked, Request::Put, name, fields)
}

// The records without the entry of this name and stage.
pub fn remove(
    kind: u32,
    file: &[u8],
    work: &mut [u8],
    out: &mut [u8],
    asked: u32,
    name: &[u8],
    stage: u32,
) -> Result<usize, Fault>
    ensures { Saves kind file.now asked (remove_record (width_of kind) (record { name = name.entry.now; stage = stage })) (remove_answer (width_of kind) (hash_of kind) work.old asked (record { name = name.entry.now; stage = stage }) (length out.old) (read_kind kind file.now)) out.old work.old out.new work.new (numbered_at result) }
{
    save(
        kind,
        file,
        work,
        out,
        asked,
        Request::Remove(stage),
        name,
        no_fields(),
    )
}
