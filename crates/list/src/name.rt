// How a listing shows bytes: an object name as hexadecimal digits, the name of an entry with bytes escaped.
use std::fmt;

// Bytes as lower-case hexadecimal digits, two each.
#[derive(Clone, Copy)]
pub struct Digits<'a>(pub &'a [u8]);

impl fmt::Display for Digits<'_> {
    fn fmt<W: fmt::Write>(&self, f: &mut fmt::Formatter<W>) -> fmt::Result {
        for b in self.0 {
            write!(f, "{b:02x}")?;
        }
        Ok(())
    }
}

// A name: bytes below 32, the backslash and bytes above 126 as a backslash and three octal digits.
#[derive(Clone, Copy)]
pub struct Escaped<'a>(pub &'a [u8]);

impl fmt::Display for Escaped<'_> {
    fn fmt<W: fmt::Write>(&self, f: &mut fmt::Formatter<W>) -> fmt::Result {
        for b in self.0 {
            if is_escaped(*b) {
                write!(f, "\\{b:03o}")?;
            } else {
                f.write_char(char::from(*b))?;
            }
        }
        Ok(())
    }
}

fn is_escaped(b: u8) -> bool {
    b < 32 || b == 92 || 126 < b
}
