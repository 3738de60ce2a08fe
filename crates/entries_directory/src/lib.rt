// The entries that are still ahead of a walk over them, and the steps of such a walk.

#![tactic(auto)]

ghost use Rattle.std.specs.Prelude.{◌≡◌, true, ◌&&◌, ◌≤◌, length, leb, ltb};
ghost use Rattle.entries_directory.specs.Ahead.{FrontFits, FrontAdvanced, FrontPassed, MoreFiles, FrontPassedFiles};

use entries_run::{Cursor, name_at, pass_entry};
use fields::find;

// The name of the first entry ahead is before the cursor. common is what it has in common with the name before it.
#[derive(Clone, Copy)]
pub struct Front {
    pub cursor: Cursor,
    pub ahead: usize,
    pub common: usize,
}

// The next entry. All entries were read before the walk, so that nothing is tested again. One that is not there ends the walk.
pub fn advance(b: &[u8], v: u32, work: &mut [u8], s: Front, w: usize) -> Front
    requires { FrontFits b.now s × (8192 ≤ length work.old) × (w ≤ 32) }
    ensures { FrontAdvanced w v b.now work.old s work.new result }
{
    let c = s.cursor;
    if s.ahead <= 1 {
        return Front {
            cursor: c,
            ahead: 0,
            common: 0,
        };
    }
    let Ok(st) = pass_entry(b, v, work, c, w) else {
        return Front {
            cursor: c,
            ahead: 0,
            common: 0,
        };
    };
    Front {
        cursor: st.next,
        ahead: s.ahead - 1,
        common: st.common,
    }
}

// Whether the first entry ahead begins with the same q bytes as the one before it.
pub fn stays(s: Front, q: usize) -> bool
    ensures { result ≡ (ltb 0 s.ahead && leb q s.common) }
{
    if s.ahead == 0 {
        return false;
    }
    q <= s.common
}

// Past all entries that begin with the first q bytes of the first one ahead.
pub fn pass(b: &[u8], v: u32, work: &mut [u8], s: Front, q: usize, w: usize) -> Front
    requires { FrontFits b.now s × (8192 ≤ length work.old) × (1 ≤ s.ahead) × (w ≤ 32) }
    ensures { FrontPassed w v b.now work.old s q work.new result }
{
    let mut front = advance(b, v, &mut *work, s, w);
    // No count: how many entries there are is seen only at the first that is none of them.
    while stays(front, q) {
        front = advance(b, v, &mut *work, front, w);
    }
    front
}

// Whether the first entry ahead is one more file of the directory whose name is the first q bytes of the entry before it, which is one. What the two
// names have in common has no further "/", so only the rest is looked at.
fn is_file<'a>(b: &'a [u8], v: u32, work: &'a [u8], s: Front, q: usize) -> bool
    requires { FrontFits b.now s × (8192 ≤ length work.now) }
    ensures { result ≡ true → MoreFiles v b.now work.now s q }
{
    if stays(s, q) {
        let c = s.cursor;
        let start = c.start;
        let len = c.len;
        let name = name_at(b, v, work, start, len);
        return find(name, s.common, 47) == name.len();
    }
    false
}

// Past the files of the directory whose name is the first q bytes of the first one ahead, which is one, up to the first entry that is none.
pub fn pass_files(b: &[u8], v: u32, work: &mut [u8], s: Front, q: usize, w: usize) -> Front
    requires { FrontFits b.now s × (8192 ≤ length work.old) × (1 ≤ s.ahead) × (w ≤ 32) }
    ensures { FrontPassedFiles w v b.now work.old s q work.new result }
{
    let mut front = advance(b, v, &mut *work, s, w);
    // No count, as above.
    while is_file(b, v, &work[..], front, q) {
        front = advance(b, v, &mut *work, front, w);
    }
    front
}
