// Where a name and a stage are among the entries of a body.

#![tactic(auto)]

ghost use Rattle.std.specs.Prelude.{◌≤◌, length};
ghost use Rattle.entries_run.specs.Steps.{key_at, Room, Inside, AllRead};
ghost use Rattle.entries_place.specs.Places.{KeysCompared, PlaceFound};

use entries_run::Cursor;
use std::cmp::Ordering;

// How many entries are before a name and stage, whether the next one has them, and whether some entry mixes with them: one of the two is stage 0 of
// the name, the other another stage of it.
#[derive(Clone, Copy)]
pub struct Place {
    pub before: u32,
    pub there: bool,
    pub mixed: bool,
}

// Whether an entry is before a name and stage, has them, or mixes with them.
#[derive(Clone, Copy)]
pub struct Compared {
    pub before: bool,
    pub same: bool,
    pub mixes: bool,
}

// How the name x, of stage s, compares to the name y, of stage t.
fn order_of(x: &[u8], s: u32, y: &[u8], t: u32) -> Compared
    ensures { KeysCompared (record { name = x.now; stage = s }) (record { name = y.now; stage = t }) result }
{
    let o = fields::compare(x, y);
    match o {
        Ordering::Less => Compared {
            before: true,
            same: false,
            mixes: false,
        },
        Ordering::Equal => Compared {
            before: s < t,
            same: s == t,
            mixes: (s != t) & ((s == 0) | (t == 0)),
        },
        Ordering::Greater => Compared {
            before: false,
            same: false,
            mixes: false,
        },
    }
}

// How the entry before a cursor compares to a name and stage. Its name is in the workspace in version 4, else in the body.
fn order_at(b: &[u8], v: u32, work: &[u8], c: Cursor, name: &[u8], stage: u32) -> Compared
    requires { Inside b.now c × (8192 ≤ length work.now) }
    ensures { KeysCompared (key_at v b.now work.now c) (record { name = name.entry.now; stage = stage }) result }
{
    let len = c.len;
    if v == 4 {
        return order_of(&work[..len], c.stage, name, stage);
    }
    let a = c.start;
    let e = a + len;
    order_of(&b[a..e], c.stage, name, stage)
}

// Where an entry of this name and stage is, or would be, among the first count entries of a body, which were read before. Entries after that place
// can mix with it only where the one at the place does.
pub fn find_place(
    b: &[u8],
    v: u32,
    work: &mut [u8],
    count: u32,
    name: &[u8],
    stage: u32,
    w: usize,
) -> Place
    requires { Room b.now work.old × AllRead w v count b.now × (w ≤ 32) }
    ensures { PlaceFound w v b.now work.old count (record { name = name.entry.now; stage = stage }) work.new result }
{
    let mut c = entries_run::first();
    let mut mixed = false;
    for before in 0..count {
        let Ok(st) = entries_run::pass_entry(b, v, &mut *work, c, w) else {
            return Place {
                before: before,
                there: false,
                mixed: mixed,
            };
        };
        c = st.next;
        let d = order_at(b, v, &work[..], c, name, stage);
        mixed = mixed | d.mixes;
        if !d.before {
            return Place {
                before: before,
                there: d.same,
                mixed: mixed,
            };
        }
    }
    Place {
        before: count,
        there: false,
        mixed: mixed,
    }
}
