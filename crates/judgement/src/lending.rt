//! The memory that a caller lends: two tables of 1,024 words, and an evidence buffer of 256 numbers.

// Each call makes arrays of the three itself. A function for one of them, that answers a `Result`, and one for a struct of all
// three were tried: the check does not prove of either what the caller's slices become. And they are handed on one by one, since
// each clause on the evidence would have to say of which struct it is the part.
pub(crate) const NUMBERS: usize = 256;
