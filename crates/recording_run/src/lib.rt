// What the program `recording` decides between its reads and writes: how many bytes it asks for, where the samples of the
// WAV file begin, what becomes of a frame and of the run, what a metering writes, and what is told. The program itself only
// reads, writes and tells.

#![tactic(auto)]

pub mod answer;
pub mod input;
pub mod levelling;
pub mod metering;
pub mod rest;
pub mod strip;
pub mod wave;
