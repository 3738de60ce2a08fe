// Bytes into an output, one part after another. Each function answers the place after its part. A part that does not fit is not written, so
// an empty output measures. A part begins at most 2 ^ 50 bytes from the start, far above any file.

#![tactic(auto)]

ghost use Rattle.std.specs.Prelude.{[], ◌∷◌, ◌+◌, ◌-◌, ◌≤◌, ◌<◌, length, take, drop, replicate};
ghost use Rattle.format.specs.Bytes.{put16, put32};
ghost use Rattle.output.specs.Output.{Wrote};

// The bytes of a slice.
pub fn put_bytes(out: &mut [u8], at: usize, s: &[u8]) -> usize
    requires { at ≤ 1125899906842624 }
    ensures { Wrote out.old at s.now out.new result }
{
    let end = at + s.len();
    if out.len() < end {
        return end;
    }
    fields::copy_to(out, at, s);
    end
}

// The bytes of a slice from a to e.
pub fn put_part(out: &mut [u8], at: usize, s: &[u8], a: usize, e: usize) -> usize
    requires { (at ≤ 1125899906842624) × (a ≤ e) × (e ≤ length s.now) }
    ensures { Wrote out.old at (take (e - a) (drop a s.now)) out.new result }
{
    put_bytes(out, at, &s[a..e])
}

// One byte.
pub fn put_byte(out: &mut [u8], at: usize, x: u8) -> usize
    requires { at ≤ 1125899906842624 }
    ensures { Wrote out.old at (x ∷ []) out.new result }
{
    if out.len() <= at {
        return at + 1;
    }
    out[at] = x;
    at + 1
}

// A 16-bit number, the high byte first.
pub fn put_16(out: &mut [u8], at: usize, x: u32) -> usize
    requires { at < 1125899906842624 }
    ensures { Wrote out.old at (put16 x) out.new result }
{
    let middle = put_byte(&mut *out, at, (x / 256 % 256) as u8);
    put_byte(out, middle, (x % 256) as u8)
}

// A 32-bit number, the high byte first.
pub fn put_32(out: &mut [u8], at: usize, x: u32) -> usize
    requires { at + 2 < 1125899906842624 }
    ensures { Wrote out.old at (put32 x) out.new result }
{
    let middle = put_16(&mut *out, at, x / 65536);
    put_16(out, middle, x)
}

// n NULs.
pub fn put_nuls(out: &mut [u8], at: usize, n: usize) -> usize
    requires { at + n ≤ 1125899906842624 }
    ensures { Wrote out.old at (replicate n 0) out.new result }
{
    let end = at + n;
    if out.len() < end {
        return end;
    }
    out[at..end].fill(0);
    end
}
