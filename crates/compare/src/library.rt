// The library, driven by the same cases.
pub mod answers;
pub mod heaped;
pub mod layers;
pub mod piles;
pub mod region;
pub mod words;
