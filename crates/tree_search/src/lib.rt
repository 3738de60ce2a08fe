// The sibling of a name: by cursors over its list, else by a table of it, else by a scan where the list is short.

#![tactic(auto)]

pub mod child;
pub mod cursors;
pub mod table;
