// The two orders in which siblings are written: the index's, where each name is followed by "/", and Git's, by length and then by bytes.
ghost use Rattle.std.specs.Prelude.{◌≡◌, true, false, ◌≤◌, length};
ghost use Rattle.format.specs.Names as Names;
ghost use Rattle.cache_tree.specs.Orders.{slash_below, length_below, still_rises};

use fields::{common, find};

// Whether s is below t, each followed by "/", where they have n bytes in common.
pub fn slash_below(s: &[u8], t: &[u8], n: usize) -> bool
    requires { (n ≡ Names.common s.now t.now) × (n ≤ length s.now) × (n ≤ length t.now) }
    ensures { result ≡ slash_below s.now t.now }
{
    if s.len() <= n {
        if t.len() <= n {
            return false;
        }
        return 47 <= t[n];
    }
    if t.len() <= n {
        return s[n] < 47;
    }
    s[n] < t[n]
}

// Whether s is below t by length, then by bytes, where they have n bytes in common.
fn length_below(s: &[u8], t: &[u8], n: usize) -> bool
    requires { (n ≡ Names.common s.now t.now) × (n ≤ length s.now) × (n ≤ length t.now) }
    ensures { result ≡ length_below s.now t.now }
{
    if s.len() < t.len() {
        return true;
    }
    if t.len() < s.len() {
        return false;
    }
    if s.len() <= n {
        return false;
    }
    s[n] < t[n]
}

// In which of the two orders names rise.
#[derive(Clone, Copy)]
pub struct Rising {
    pub by_slash: bool,
    pub by_length: bool,
}

// In which of these orders the name at a is also below the one at b. A name is not held against itself.
pub fn rise(d: &[u8], a: usize, b: usize, so_far: Rising) -> Rising
    requires { (a ≤ length d.now) × (b ≤ length d.now) }
    ensures { (result.by_slash ≡ still_rises false d.now a b so_far.by_slash) × (result.by_length ≡ still_rises true d.now a b so_far.by_length) }
{
    if a == b {
        return so_far;
    }
    let x = find(d, a, 0);
    let y = find(d, b, 0);
    let s = &d[a..x];
    let t = &d[b..y];
    let n = common(s, t);
    let by_slash = slash_below(s, t, n);
    let by_length = length_below(s, t, n);
    Rising {
        by_slash: so_far.by_slash & by_slash,
        by_length: so_far.by_length & by_length,
    }
}
