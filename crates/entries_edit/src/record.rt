// One entry, written from its fields and its name.
ghost use Rattle.std.specs.Prelude.{◌≡◌, [], ◌∷◌, ◌++◌, ◌+◌, ◌*◌, ◌≤◌, take};
ghost use Rattle.format.specs.Bytes.{put32s};
ghost use Rattle.format.specs.Layout.{bit};
ghost use Rattle.output.specs.Output.{Wrote};
ghost use Rattle.entries_write.specs.Parts.{PrefixKept, EntryWritten};
ghost use Rattle.entries.specs.Record.{entry_with};

use entries::record::Fields;

// Five 32-bit numbers.
fn put_five(out: &mut [u8], at: usize, a: u32, b: u32, c: u32, d: u32, e: u32) -> usize
    requires { at + 20 ≤ 1125899906842624 }
    ensures { Wrote out.old at (put32s (a ∷ b ∷ c ∷ d ∷ e ∷ [])) out.new result × (result ≡ at + 20) }
{
    let second = output::put_32(&mut *out, at, a);
    let third = output::put_32(&mut *out, second, b);
    let fourth = output::put_32(&mut *out, third, c);
    let fifth = output::put_32(&mut *out, fourth, d);
    output::put_32(out, fifth, e)
}

// The ten numbers and the object name.
fn put_fields(out: &mut [u8], at: usize, fields: Fields, w: usize) -> usize
    requires { (at + (40 + w) ≤ 1125899906842624) × (w ≤ 32) }
    ensures { Wrote out.old at (put32s (entry_with w fields []).numbers ++ take w fields.object) out.new result × (result ≡ at + (40 + w)) }
{
    let middle = put_five(
        &mut *out,
        at,
        fields.ctime_seconds,
        fields.ctime_nanoseconds,
        fields.mtime_seconds,
        fields.mtime_nanoseconds,
        fields.dev,
    );
    let end = put_five(
        &mut *out,
        middle,
        fields.ino,
        fields.mode,
        fields.uid,
        fields.gid,
        fields.size,
    );
    let object = fields.object;
    output::put_part(out, end, &object, 0, w)
}

// An entry of these fields and this name, after a name of previous bytes, of which it keeps the first kept.
pub fn put_record(
    out: &mut [u8],
    at: usize,
    version: u32,
    fields: Fields,
    name: &[u8],
    previous: usize,
    kept: usize,
    w: usize,
) -> usize
    requires { (at + 8276 ≤ 1125899906842624) × (fields.stage ≤ 3) × PrefixKept name.now previous kept × (w ≤ 32) }
    ensures { EntryWritten w out.old at version (entry_with w fields name.now) previous kept out.new result }
{
    let middle = put_fields(&mut *out, at, fields, w);
    let base = u32::from(fields.assume_valid) * 32768 + fields.stage * 4096;
    let word = u32::from(fields.skip_worktree) * 16384 + u32::from(fields.intent_to_add) * 8192;
    entries_write::put_rest(out, middle, version, base, word, name, previous, kept, w)
}
