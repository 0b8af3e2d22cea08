// The image of 128 bytes that a host keeps: its layout and what a call leaves of it (specs/Image.antt),
// its latches, and outputs, temperatures and samples for C. The calls on it are in `w83782d_c`.

#![tactic(auto)]

pub mod latches;
pub mod words;
