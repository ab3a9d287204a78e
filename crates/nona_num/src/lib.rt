//! Numbers of 64 bits that wrap, the folds that join them, and ranges of whole numbers.
//!
//! A number is an `i64`. Each operator gives the whole number that the mathematics gives, reduced
//! once modulo 2^64 into an `i64`. Nothing here allocates, and nothing fails but division by 0.
#![tactic(auto)]

mod arithmetic;
mod folds;
mod range;

pub use arithmetic::{
    add, and, div, gap, mul, neg, number_laws, offset, or, rem, shl, shr, sub, wrap_index, xor,
};
pub use folds::{Fold, fold_laws};
pub use range::Range;
