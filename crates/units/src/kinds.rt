// Three kinds of f32, so that a level cannot be given where a difference is due.

// A level in dB relative to full scale.
#[repr(C)]
#[derive(Clone, Copy, PartialEq)]
pub struct Dbfs(pub f32);

// A difference of levels, or a gain, in dB.
#[repr(C)]
#[derive(Clone, Copy, PartialEq)]
pub struct Db(pub f32);

// A linear level on the scale of 16-bit samples, where full scale is 32768.
#[repr(C)]
#[derive(Clone, Copy, PartialEq)]
pub struct LinearS16(pub f32);
