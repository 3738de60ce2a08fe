// Decimal numbers in a text.
ghost use Rattle.std.specs.Prelude.{◌≡◌, ◌<◌};
ghost use Rattle.tree_nodes.specs.Answers.{number_in};

// The number that a text says, at most limit. The look at a long text ends where the limit is passed.
pub fn read_number(t: &[u8], limit: u64) -> Option<u32>
    requires { limit < 4294967296 }
    ensures { result ≡ number_in limit t.now }
{
    if t.len() == 0 {
        return None;
    }
    if t[0] == b'0' {
        if t.len() == 1 {
            return Some(0);
        }
        return None;
    }
    let mut v: u64 = 0;
    for digit in t {
        if !digit.is_ascii_digit() {
            return None;
        }
        v = v * 10 + u64::from(*digit - b'0');
        if limit < v {
            return None;
        }
    }
    Some(v as u32)
}
