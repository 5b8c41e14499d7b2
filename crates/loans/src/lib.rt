// A table that the caller lends, whatever kind of record it has: one is taken out, one is written to its place, and the first n are made anew.
#![tactic(auto)]

ghost use Rattle.std.specs.Prelude.{◌≡◌, ℕ, get_or, set};
ghost use Rattle.events.specs.Events.{went_down};
ghost use Rattle.effects.specs.Effects.{first_record};
ghost use Rattle.loans.specs.Loans.{made_by};

use node::Node;

// The records of a table, for each kind of node.
pub trait Records {
    type Record: Copy;

    ghost when_down: { Self.Record };

    ghost rule: { ℕ → ℕ → Self.Record };

    // That of a node that is down.
    fn down() -> Self::Record
        ensures { result ≡ when_down };

    // That of node i at a start. A mask has room for sixteen senders, so from 16 on none is compromised.
    fn fresh(compromised: u16, i: usize) -> Self::Record
        ensures { result ≡ rule compromised i };
}

// Those of a Peer site's nodes.
pub struct Peers;

impl Records for Peers {
    type Record = Node;

    ghost when_down = { went_down };

    ghost rule = { first_record };

    fn down() -> Node {
        events::down()
    }

    fn fresh(compromised: u16, i: usize) -> Node {
        if i < 16 {
            return effects::first_record(compromised, i as u8);
        }
        events::up()
    }
}

// The record at i; where there is none, that of a node that is down.
pub fn record_at<K: Records>(nodes: &[K::Record], i: usize) -> K::Record
    ensures { result ≡ get_or nodes.now i K.when_down }
{
    match nodes.get(i) {
        Some(node) => *node,
        None => K::down(),
    }
}

// A record goes to its place, where there is one.
pub fn write_at<R: Copy>(nodes: &mut [R], i: usize, node: R)
    ensures { nodes.new ≡ set nodes.old i node }
{
    if i < nodes.len() {
        nodes[i] = node;
    }
}

// The first n records are made anew, and the others left. In a table of fewer than n none is made.
pub fn fill<K: Records>(nodes: &mut [K::Record], n: usize, compromised: u16)
    ensures { nodes.new ≡ made_by K.rule n compromised nodes.old }
{
    if nodes.len() < n {
        return;
    }
    for i in 0..n {
        nodes[i] = K::fresh(compromised, i);
    }
}
