// The counts of a cache tree against the entries: refusal 16. What the functions hand on to each other (the body b of version v, the workspace, the width w
// of an object name) is no struct, since the crates below take it one by one: it would be taken apart at each call.

#![tactic(auto)]

pub mod counts;
pub mod gather;
pub mod look;
pub mod survey;
pub mod walk;
