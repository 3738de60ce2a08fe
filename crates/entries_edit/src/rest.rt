// The entries of a body from a cursor on, which were read before, written after another name than the one before it, or without the first of them.
ghost use Rattle.std.specs.Prelude.{◌≡◌, true, false, List, ℕ, ◌+◌, ◌*◌, ◌≤◌, min, length};
ghost use Rattle.format.specs.Names as Names;
ghost use Rattle.format.specs.Layout.{bit};
ghost use Rattle.entries_run.specs.Steps.{Inside, name_at, key_at, Readable};
ghost use Rattle.entries_write.specs.Parts.{PrefixKept};
ghost use Rattle.entries_edit.specs.Rests.{StepWritten, OthersWritten, PastWritten, RemovedWritten};

use entries_run::{Cursor, Step};

// The place after what was written, and whether an entry of it needs the extended word.
#[derive(Clone, Copy)]
pub struct WriteEnd {
    pub at: usize,
    pub extended: bool,
}

// How many bytes the name before a cursor, in the workspace in version 4, else in the body, and a name have in common.
pub fn common_at<'a>(b: &'a [u8], v: u32, work: &'a [u8], c: Cursor, name: &[u8]) -> usize
    requires { Inside b.now c × (8192 ≤ length work.now) }
    ensures { result ≡ Names.common (key_at v b.now work.now c).name name.now }
{
    fields::common(entries_run::name_at(b, v, work, c.start, c.len), name)
}

// The entry that a step read, after a name of previous bytes, of which it keeps the first kept; then n entries more.
fn put_stepped(
    b: &[u8],
    v: u32,
    work: &mut [u8],
    from: usize,
    st: Step,
    n: u32,
    previous: usize,
    kept: usize,
    version: u32,
    out: &mut [u8],
    at: usize,
    w: usize,
) -> WriteEnd
    requires { (at + (n + 1) * 8276 ≤ 1125899906842624) × (from + (40 + w) ≤ length b.now) × Inside b.now st.next × (8192 ≤ length work.old) × PrefixKept (name_at v b.now work.old st.next.start st.next.len) previous kept × Readable w v n b.now work.old st.next × (w ≤ 32) }
    ensures { StepWritten w v b.now work.old from st n previous kept version out.old at work.new out.new result }
{
    let middle = entries_write::put_step(
        b,
        v,
        &*work,
        from,
        st.flags,
        st.word,
        st.next.start,
        st.next.len,
        version,
        previous,
        kept,
        &mut *out,
        at,
        w,
    );
    let rest = entries_write::put_entries(b, v, work, st.next, n, version, out, middle, w);
    WriteEnd {
        at: rest.at,
        extended: entries_write::either(rest.extended, st.word),
    }
}

// n entries; the first of them is written after this name, not after the one before the cursor.
fn put_after(
    b: &[u8],
    v: u32,
    work: &mut [u8],
    c: Cursor,
    n: u32,
    name: &[u8],
    version: u32,
    out: &mut [u8],
    at: usize,
    w: usize,
) -> WriteEnd
    requires { (at + n * 8276 ≤ 1125899906842624) × Inside b.now c × (8192 ≤ length work.old) × (length name.now ≤ 8192) × Readable w v n b.now work.old c × (w ≤ 32) }
    ensures { OthersWritten w v b.now work.old c n false name.now version out.old at work.new out.new result }
{
    if n == 0 {
        return WriteEnd {
            at: at,
            extended: false,
        };
    }
    let Ok(st) = entries_run::pass_entry(b, v, &mut *work, c, w) else {
        return WriteEnd {
            at: at,
            extended: false,
        };
    };
    let kept = common_at(b, v, &*work, st.next, name);
    put_stepped(
        b,
        v,
        work,
        c.at,
        st,
        n - 1,
        name.len(),
        kept,
        version,
        out,
        at,
        w,
    )
}

// n entries but the first, which has the name that the second is written after.
fn put_replaced(
    b: &[u8],
    v: u32,
    work: &mut [u8],
    c: Cursor,
    n: u32,
    version: u32,
    out: &mut [u8],
    at: usize,
    w: usize,
) -> WriteEnd
    requires { (at + n * 8276 ≤ 1125899906842624) × Inside b.now c × (8192 ≤ length work.old) × (1 ≤ n) × Readable w v n b.now work.old c × (w ≤ 32) }
    ensures { (p : List ℕ) → OthersWritten w v b.now work.old c n true p version out.old at work.new out.new result }
{
    let Ok(st) = entries_run::pass_entry(b, v, &mut *work, c, w) else {
        return WriteEnd {
            at: at,
            extended: false,
        };
    };
    let rest = entries_write::put_entries(b, v, work, st.next, n - 1, version, out, at, w);
    WriteEnd {
        at: rest.at,
        extended: rest.extended,
    }
}

// n entries after a name, or all but the first of them, which has that name.
pub fn put_others(
    b: &[u8],
    v: u32,
    work: &mut [u8],
    c: Cursor,
    n: u32,
    there: bool,
    name: &[u8],
    version: u32,
    out: &mut [u8],
    at: usize,
    w: usize,
) -> WriteEnd
    requires { (at + n * 8276 ≤ 1125899906842624) × Inside b.now c × (8192 ≤ length work.old) × (length name.now ≤ 8192) × (bit there ≤ n) × Readable w v n b.now work.old c × (w ≤ 32) }
    ensures { OthersWritten w v b.now work.old c n there name.now version out.old at work.new out.new result }
{
    if there {
        return put_replaced(b, v, work, c, n, version, out, at, w);
    }
    put_after(b, v, work, c, n, name, version, out, at, w)
}

// n entries after one that is left out, the one before the cursor. It came after a name of previous bytes, of which it keeps the first kept.
fn put_past(
    b: &[u8],
    v: u32,
    work: &mut [u8],
    c: Cursor,
    n: u32,
    previous: usize,
    kept: usize,
    version: u32,
    out: &mut [u8],
    at: usize,
    w: usize,
) -> WriteEnd
    requires { (at + n * 8276 ≤ 1125899906842624) × Inside b.now c × (8192 ≤ length work.old) × (previous ≤ 8192) × (kept ≤ previous) × Readable w v n b.now work.old c × (w ≤ 32) }
    ensures { PastWritten w v b.now work.old c n previous kept version out.old at work.new out.new result }
{
    if n == 0 {
        return WriteEnd {
            at: at,
            extended: false,
        };
    }
    let Ok(st) = entries_run::pass_entry(b, v, &mut *work, c, w) else {
        return WriteEnd {
            at: at,
            extended: false,
        };
    };
    put_stepped(
        b,
        v,
        work,
        c.at,
        st,
        n - 1,
        previous,
        kept.min(st.common),
        version,
        out,
        at,
        w,
    )
}

// n entries but the first.
pub fn put_removed(
    b: &[u8],
    v: u32,
    work: &mut [u8],
    c: Cursor,
    n: u32,
    version: u32,
    out: &mut [u8],
    at: usize,
    w: usize,
) -> WriteEnd
    requires { (at + n * 8276 ≤ 1125899906842624) × Inside b.now c × (8192 ≤ length work.old) × (1 ≤ n) × Readable w v n b.now work.old c × (w ≤ 32) }
    ensures { RemovedWritten w v b.now work.old c n version out.old at work.new out.new result }
{
    let Ok(st) = entries_run::pass_entry(b, v, &mut *work, c, w) else {
        return WriteEnd {
            at: at,
            extended: false,
        };
    };
    put_past(
        b,
        v,
        work,
        st.next,
        n - 1,
        c.len,
        st.common,
        version,
        out,
        at,
        w,
    )
}
