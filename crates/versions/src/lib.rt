// What a version that is asked for means: whether it may be, and which the file has that is written. It is a number and no enum, since a call answers
// for every number.

#![tactic(auto)]

ghost use Rattle.std.specs.Prelude.{◌≡◌, ◌&&◌, eqb};
ghost use Rattle.format.specs.Requests.{ok_asked, version_of};

// Whether a version may be asked for.
pub fn asked_ok(asked: u32) -> bool
    ensures { result ≡ ok_asked asked }
{
    asked <= 4
}

// The version of the file: 0 asks for 4, 1 for the lowest, which is 3 where an entry needs the extended word, else 2.
#[tactic(auto, unfolding(format::specs::Requests::version_of))]
pub fn version_for(asked: u32, extended: bool) -> u32
    ensures { result ≡ version_of asked extended }
{
    match asked {
        0 => 4,
        1 => if extended { 3 } else { 2 },
        _ => asked,
    }
}

// Whether version 2 is asked for and an entry needs the extended word.
pub fn is_barred(asked: u32, extended: bool) -> bool
    ensures { result ≡ (eqb asked 2 && extended) }
{
    (asked == 2) & extended
}
