//! Limits that several crates share.

/// The greatest counter of a dot, count of changes, boot, number of an incarnation and number of a message: 2^53 - 1.
/// Every whole number up to it is exact in a 64-bit float, as JSON's usual readers keep numbers, and no greater one is
/// rounded to it. It is the greatest such number: 2^53 + 1 is rounded to 2^53.
pub const MAX: u64 = 9_007_199_254_740_991;
