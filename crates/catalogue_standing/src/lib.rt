// The lattices of the entries of a catalogue, each reduced once, and the closed list of their standing entries.
#![tactic(auto)]

pub mod entry_lattices;
mod first_places;
mod same_lattice;
pub mod standing_entry;
pub mod standing_places;
