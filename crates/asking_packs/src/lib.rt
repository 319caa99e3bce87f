// Requests about a pack that is kept from one to the next, and about drawings from it and by a font beside it.
#![tactic(auto)]

pub mod drawings;
pub mod packs;
