// A status with its stamp: what a relay or a breaker says, what is shared, commanded and acknowledged. A status stays a number, and no enum: steps and lent records
// may have any, and those above 1 are answered with 2 or 16 (01).
#![tactic(auto)]

use time::Dts;

#[derive(Clone, Copy)]
pub struct Pair {
    pub status: u8,
    pub stamp: Dts,
}

// Up to two of them, in the order in which they are sent. There is no heap in the model, and an array with a count would have places that mean nothing.
#[derive(Clone, Copy)]
pub enum Pairs {
    Zero,
    One(Pair),
    Two(Pair, Pair),
}
