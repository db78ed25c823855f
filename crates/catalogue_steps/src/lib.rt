// The steps of reading: words out of bytes, what a word does to the state, an entry while it is read, and an entry that is whole.
#![tactic(auto)]

pub mod entries;
pub mod parts;
pub mod reading;
pub mod words;
