// A WAV file of 16-bit samples: what its start, a chunk's head and its format chunk say, the head of one that is
// written, and its samples to and from a frame. Little-endian. What a file has besides is passed by.

#![tactic(auto)]

pub mod head;
mod numbers;
pub mod samples;
