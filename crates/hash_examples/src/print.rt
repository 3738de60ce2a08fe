// Writes a line: a description, two spaces, the digest as lower-case hexadecimal digits.
use std::convert::AsSlice;
use std::{fmt, io};

pub fn line<D: AsSlice<u8>>(
    rt: &impl Print,
    hash: &str,
    message: &str,
    digest: &D,
) -> io::Result<()> {
    let digits = Digits(digest.as_slice());
    println!(rt; "{hash} of {message}  {digits}")
}

#[derive(Clone, Copy)]
struct Digits<'a>(&'a [u8]);

impl fmt::Display for Digits<'_> {
    fn fmt<W: fmt::Write>(&self, f: &mut fmt::Formatter<W>) -> fmt::Result {
        for b in self.0 {
            write!(f, "{b:02x}")?;
        }
        Ok(())
    }
}
