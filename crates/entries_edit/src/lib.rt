// The entries of a body, which were read before, written with one of them put or removed, or as they are.

#![tactic(auto)]

pub mod record;
pub mod rest;

ghost use Rattle.std.specs.Prelude.{◌+◌, ◌≤◌, length};
ghost use Rattle.format.specs.Records.{Entry};
ghost use Rattle.format.specs.Layout.{bit};
ghost use Rattle.entries_run.specs.Steps.{Room, AllRead};
ghost use Rattle.entries.specs.Record.{entry_with};
ghost use Rattle.entries_edit.specs.declared.Edit.TheVariants as E;
ghost use Rattle.entries_edit.specs.Edits.{passes, EntriesEdited};

use crate::rest::WriteEnd;
use entries::record::Fields;

// What changes: nothing; an entry is put after the first k, in place of the next one or not; the entry after the first k is removed.
#[derive(Clone, Copy)]
pub enum Edit {
    Keep,
    Put(u32, bool),
    Remove(u32),
}

// As they are.
fn put_kept(
    b: &[u8],
    v: u32,
    work: &mut [u8],
    count: u32,
    version: u32,
    out: &mut [u8],
    at: usize,
    w: usize,
) -> WriteEnd
    requires { Room b.now work.old × (at ≤ 16777216) × AllRead w v count b.now × (w ≤ 32) }
    ensures { (e : Entry) → EntriesEdited w v b.now work.old count E.Keep e version out.old at work.new out.new result }
{
    let start = entries_run::first();
    let all = entries_write::put_entries(b, v, work, start, count, version, out, at, w);
    WriteEnd {
        at: all.at,
        extended: all.extended,
    }
}

// With an entry put after the first k, in place of the next one or not.
fn put_with(
    b: &[u8],
    v: u32,
    work: &mut [u8],
    count: u32,
    k: u32,
    there: bool,
    fields: Fields,
    name: &[u8],
    version: u32,
    out: &mut [u8],
    at: usize,
    w: usize,
) -> WriteEnd
    requires { Room b.now work.old × (k + bit there ≤ count) × (fields.stage ≤ 3) × (length name.now ≤ 8192) × (at ≤ 16777216) × AllRead w v count b.now × (w ≤ 32) }
    ensures { EntriesEdited w v b.now work.old count (E.Put k there) (entry_with w fields name.now) version out.old at work.new out.new result }
{
    let start = entries_run::first();
    let front = entries_write::put_entries(b, v, &mut *work, start, k, version, &mut *out, at, w);
    let c = front.cursor;
    let kept = crate::rest::common_at(b, v, &*work, c, name);
    let middle = crate::record::put_record(
        &mut *out, front.at, version, fields, name, c.len, kept, w,
    );
    let rest = crate::rest::put_others(
        b,
        v,
        work,
        c,
        count - k,
        there,
        name,
        version,
        out,
        middle,
        w,
    );
    WriteEnd {
        at: rest.at,
        extended: front.extended | fields.skip_worktree | fields.intent_to_add | rest.extended,
    }
}

// Without the one after the first k.
fn put_without(
    b: &[u8],
    v: u32,
    work: &mut [u8],
    count: u32,
    k: u32,
    version: u32,
    out: &mut [u8],
    at: usize,
    w: usize,
) -> WriteEnd
    requires { Room b.now work.old × (k + 1 ≤ count) × (at ≤ 16777216) × AllRead w v count b.now × (w ≤ 32) }
    ensures { (e : Entry) → EntriesEdited w v b.now work.old count (E.Remove k) e version out.old at work.new out.new result }
{
    let start = entries_run::first();
    let front = entries_write::put_entries(b, v, &mut *work, start, k, version, &mut *out, at, w);
    let rest = crate::rest::put_removed(
        b,
        v,
        work,
        front.cursor,
        count - k,
        version,
        out,
        front.at,
        w,
    );
    WriteEnd {
        at: rest.at,
        extended: front.extended | rest.extended,
    }
}

// The first count entries of a body, edited; fields and name are those of the entry that is put.
pub fn put_edited(
    b: &[u8],
    v: u32,
    work: &mut [u8],
    count: u32,
    edit: Edit,
    fields: Fields,
    name: &[u8],
    version: u32,
    out: &mut [u8],
    at: usize,
    w: usize,
) -> WriteEnd
    requires { Room b.now work.old × (passes edit ≤ count) × (fields.stage ≤ 3) × (length name.now ≤ 8192) × (at ≤ 16777216) × AllRead w v count b.now × (w ≤ 32) }
    ensures { EntriesEdited w v b.now work.old count edit (entry_with w fields name.now) version out.old at work.new out.new result }
{
    match edit {
        Edit::Keep => put_kept(b, v, work, count, version, out, at, w),
        Edit::Put(k, there) => put_with(
            b, v, work, count, k, there, fields, name, version, out, at, w,
        ),
        Edit::Remove(k) => put_without(b, v, work, count, k, version, out, at, w),
    }
}
