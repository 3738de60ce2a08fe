// The fields of an entry.
ghost use Rattle.std.specs.Prelude.{◌≡◌, ◌+◌, ◌≤◌, length, take, drop};
ghost use Rattle.entries.specs.Record.{wide_object, FieldsRead, no_fields};

// The fields of an entry but its name; zeros and false in a refusal. The object name has 32 bytes of room: a shorter one is first, zeros follow.
#[derive(Clone, Copy)]
pub struct Fields {
    pub ctime_seconds: u32,
    pub ctime_nanoseconds: u32,
    pub mtime_seconds: u32,
    pub mtime_nanoseconds: u32,
    pub dev: u32,
    pub ino: u32,
    pub mode: u32,
    pub uid: u32,
    pub gid: u32,
    pub size: u32,
    pub object: [u8; 32],
    pub assume_valid: bool,
    pub stage: u32,
    pub skip_worktree: bool,
    pub intent_to_add: bool,
}

// The object name of w bytes at a place, zeros after it.
pub fn object_at(b: &[u8], at: usize, w: usize) -> [u8; 32]
    requires { (at + w ≤ length b.now) × (w ≤ 32) }
    ensures { result ≡ wide_object (take w (drop at b.now)) }
{
    let mut o = [0u8; 32];
    let e = at + w;
    fields::copy_to(&mut o, 0, &b[at..e]);
    o
}

// The fields of the entry at a place, from its flags and its extended word, or 0 without one.
pub fn fields_at(b: &[u8], at: usize, flags: u32, word: u32, w: usize) -> Fields
    requires { (at + (40 + w) ≤ length b.now) × (w ≤ 32) }
    ensures { FieldsRead w (drop at b.now) flags word result }
{
    Fields {
        ctime_seconds: fields::read32(b, at),
        ctime_nanoseconds: fields::read32(b, at + 4),
        mtime_seconds: fields::read32(b, at + 8),
        mtime_nanoseconds: fields::read32(b, at + 12),
        dev: fields::read32(b, at + 16),
        ino: fields::read32(b, at + 20),
        mode: fields::read32(b, at + 24),
        uid: fields::read32(b, at + 28),
        gid: fields::read32(b, at + 32),
        size: fields::read32(b, at + 36),
        object: object_at(b, at + 40, w),
        assume_valid: flags / 32768 % 2 == 1,
        stage: flags / 4096 % 4,
        skip_worktree: word / 16384 % 2 == 1,
        intent_to_add: word / 8192 % 2 == 1,
    }
}

// Zeros and false.
pub fn no_fields() -> Fields
    ensures { result ≡ no_fields }
{
    Fields {
        ctime_seconds: 0,
        ctime_nanoseconds: 0,
        mtime_seconds: 0,
        mtime_nanoseconds: 0,
        dev: 0,
        ino: 0,
        mode: 0,
        uid: 0,
        gid: 0,
        size: 0,
        object: [0u8; 32],
        assume_valid: false,
        stage: 0,
        skip_worktree: false,
        intent_to_add: false,
    }
}
