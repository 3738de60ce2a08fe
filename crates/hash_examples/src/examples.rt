// A hash on published examples, in one call and in pieces, by the functions that callers have of it.
use crate::named::Named;
use crate::print::line;
use hash_words::block_hash::{absorb, finish};
use std::convert::AsSlice;
use std::io;

// In one call.
pub fn whole<S: Named, P: Print>(rt: &P, hash: &str) -> io::Result<()>
where
    S::Digest: AsSlice<u8> + Drop,
{
    line(rt, hash, "nothing", &S::whole(b""))?;
    line(rt, hash, "abc", &S::whole(b"abc"))?;
    line(
        rt,
        hash,
        "the 448-bit message",
        &S::whole(b"abcdbcdecdefdefgefghfghighijhijkijkljklmklmnlmnomnopnopq"),
    )?;
    line(
        rt,
        hash,
        "the 896-bit message",
        &S::whole(
            b"abcdefghbcdefghicdefghijdefghijkefghijklfghijklmghijklmnhijklmnoijklmnopjklmnopqklmnopqrlmnopqrsmnopqrstnopqrstu",
        ),
    )?;
    line(rt, hash, "a million times a", &million::<S>())
}

// In pieces.
pub fn pieces<S: Named, P: Print>(rt: &P, hash: &str) -> io::Result<()>
where
    S::Digest: AsSlice<u8> + Drop,
{
    line(
        rt,
        hash,
        "the 896-bit message in two pieces",
        &in_two_pieces::<S>(),
    )?;
    line(
        rt,
        hash,
        "a million times a in 125 pieces",
        &million_in_pieces::<S>(),
    )?;
    line(
        rt,
        hash,
        "the 896-bit message in uneven slices",
        &in_slices::<S>(),
    )?;
    line(
        rt,
        hash,
        "a million times a in uneven slices",
        &million_in_slices::<S>(),
    )
}

fn million<S: Named>() -> S::Digest {
    let message = [b'a'; 1000000];
    of_million::<S>(&message)
}

// The parameter's type gives the length, so that no proof has to count the elements.
fn of_million<S: Named>(message: &[u8; 1000000]) -> S::Digest {
    S::whole(message)
}

// The 896-bit message as its one whole block and the 48 bytes after it.
fn in_two_pieces<S: Named>() -> S::Digest {
    let h = absorb(
        S::first(),
        b"abcdefghbcdefghicdefghijdefghijkefghijklfghijklmghijklmnhijklmno",
    );
    finish(h, b"ijklmnopjklmnopqklmnopqrlmnopqrsmnopqrstnopqrstu", 112)
}

// A million bytes as 125 pieces of 125 blocks each, and nothing after them.
fn million_in_pieces<S: Named>() -> S::Digest {
    let piece = [b'a'; 8000];
    let mut h = S::first();
    for _ in 0..125usize {
        h = absorb(h, &piece);
    }
    finish(h, b"", 1000000)
}

// The 896-bit message in slices of 1, 63, 0 and 48 bytes: the second fills the block.
fn in_slices<S: Named>() -> S::Digest {
    let h = S::update(S::new(), b"a");
    let h = S::update(
        h,
        b"bcdefghbcdefghicdefghijdefghijkefghijklfghijklmghijklmnhijklmno",
    );
    let h = S::update(h, b"");
    S::finalize(S::update(h, b"ijklmnopjklmnopqklmnopqrlmnopqrsmnopqrstnopqrstu"))
}

// A million bytes in slices of 0 to 1000 bytes.
fn million_in_slices<S: Named>() -> S::Digest {
    let piece = [b'a'; 1000];
    let mut h = S::new();
    for i in 0..1000usize {
        let (front, back) = piece.split_at(i);
        h = S::update(S::update(h, front), back);
    }
    S::finalize(h)
}
