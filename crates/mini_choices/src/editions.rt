//! The editions of ECMA-262, as years, that forms came with which rows of choices write.

/// `??`, and `a?.b`.
pub const COALESCING: u16 = 2020;

/// `&&=`, `||=` and `??=`.
pub const DECIDING: u16 = 2021;
