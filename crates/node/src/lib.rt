// A relay node by value: what it knows, its state, and what is asked of it.
#![tactic(auto)]

pub mod asked;

use pairs::{Pair, Pairs};
use store::Store;
use time::Dts;

// What a starting node has learned so far. The second pair is the breaker's status and stamp as acknowledged or queried.
#[derive(Clone, Copy)]
pub struct Learned {
    pub r: Option<Pair>,
    pub b: Option<Pair>,
    pub second: Option<Pair>,
    pub number: Option<u32>,
}

// What a running node knows. The second pair may be missing in a record that is lent: 16 says what then. `resend` is the stamp of the command that is sent again
// and again, if one is.
#[derive(Clone, Copy)]
pub struct Record {
    pub r: Pair,
    pub b: Pair,
    pub second: Option<Pair>,
    pub number: Option<u32>,
    pub resend: Option<Dts>,
}

#[derive(Clone, Copy)]
pub enum Phase {
    Down,
    Starting(Learned),
    Running(Record),
}

// The store's clock is the node's last clock, whatever its phase: 0 where it has none yet.
#[derive(Clone, Copy)]
pub struct Node {
    pub store: Store,
    pub phase: Phase,
}

// What an event makes of a phase, before the combining rule: the phase afterwards, what it shares, and the command that it sends, if it sends one.
#[derive(Clone, Copy)]
pub struct Changed {
    pub phase: Phase,
    pub shares: Pairs,
    pub command: Option<Pair>,
}

// What an event made of a node, at its end: the record afterwards, and what it sends.
#[derive(Clone, Copy)]
pub struct Acted {
    pub node: Node,
    pub shares: Pairs,
    pub commands: Pairs,
}
