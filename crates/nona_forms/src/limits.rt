//! The limits of affine forms and of calm loops.

/// The most terms of a form.
pub const TERMS: usize = 1_048_576;

/// The greatest absolute value of a coefficient of a form.
pub const COEFFICIENT: i64 = 2_147_483_648;

/// The greatest absolute value of the constant of a form.
pub const CONSTANT: i64 = 9_223_372_036_854_775_807;

/// The most accesses of a calm loop.
pub const ACCESSES: usize = 1_024;
