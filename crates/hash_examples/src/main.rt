// Runs SHA-1 and SHA-256 on published examples. One line each: a description, two spaces, the digest in hexadecimal.
//
// For SHA-1 and SHA-256, "abc" and the 448-bit message are the examples published with FIPS 180-4; a million times "a" is
// the long example of FIPS 180-2, A.3 and B.3. The 896-bit message is that of the SHA-512 example. The file stdout has the
// digests from another implementation.

#![tactic(auto)]

mod examples;
mod named;
mod print;

use std::io;

fn main(rt: HostRuntime) -> io::Result<()> {
    examples::whole::<hash::State, _>(&rt, "SHA-1")?;
    examples::pieces::<hash::State, _>(&rt, "SHA-1")?;
    examples::whole::<sha256::State, _>(&rt, "SHA-256")?;
    examples::pieces::<sha256::State, _>(&rt, "SHA-256")
}
