// A node of the Arbiter Protocol, by value: 01's node, which keeps no shares, combines nothing, sends no command and arms no resend.
#![tactic(auto)]

ghost use Rattle.std.specs.Prelude.{◌≡◌};
ghost use Rattle.effects.specs.Effects.{first_record};
ghost use Rattle.arbiter_node.specs.Voter.{phase_in_peer, in_peer, of_peer_phase, of_peer, first_of, voted};

use acting::change;
use arbiter_steps::{Event, in_peer};
use breaker::Breaker;
use node::{Learned, Node, Record};
use pairs::{Pair, Pairs};
use store::Store;
use time::Dts;

// What a starting node has learned so far. It sends no command when it runs, and so has no second pair (§9 of 02).
#[derive(Clone, Copy)]
pub struct Learning {
    pub r: Option<Pair>,
    pub b: Option<Pair>,
    pub number: Option<u32>,
}

// What a running node knows.
#[derive(Clone, Copy)]
pub struct Heard {
    pub r: Pair,
    pub b: Pair,
    pub number: Option<u32>,
}

// A type of its own, and not 01's with other records in it: all that is shown of 01's phase (crates/node/specs and above) names it without parameters.
#[derive(Clone, Copy)]
pub enum Phase {
    Down,
    Starting(Learning),
    Running(Heard),
}

// The clock is the node's last: 0 where it has none yet.
#[derive(Clone, Copy)]
pub struct Voter {
    pub phase: Phase,
    pub clock: Dts,
}

// What an event made of a node: the record afterwards, and the message that it sends to the breaker, if it sends one.
#[derive(Clone, Copy)]
pub struct Voted {
    pub voter: Voter,
    pub message: Option<Pair>,
}

// As 01's node it has b itself for its second pair, against which 16 has nothing. This way and the other are no `From`: the one makes a part up and the other
// drops some, which their names say and `into` would not.
fn phase_in_peer(phase: Phase) -> node::Phase
    ensures { result ≡ phase_in_peer phase }
{
    match phase {
        Phase::Down => node::Phase::Down,
        Phase::Starting(learning) => node::Phase::Starting(Learned {
            r: learning.r,
            b: learning.b,
            second: learning.b,
            number: learning.number,
        }),
        Phase::Running(heard) => node::Phase::Running(Record {
            r: heard.r,
            b: heard.b,
            second: Some(heard.b),
            number: heard.number,
            resend: None,
        }),
    }
}

fn of_peer_phase(phase: node::Phase) -> Phase
    ensures { result ≡ of_peer_phase phase }
{
    match phase {
        node::Phase::Down => Phase::Down,
        node::Phase::Starting(learned) => Phase::Starting(Learning {
            r: learned.r,
            b: learned.b,
            number: learned.number,
        }),
        node::Phase::Running(rec) => Phase::Running(Heard {
            r: rec.r,
            b: rec.b,
            number: rec.number,
        }),
    }
}

// The node as 01's, which holds nothing and resends nothing.
pub fn in_peer_site(voter: Voter) -> Node
    ensures { result ≡ in_peer voter }
{
    Node {
        phase: phase_in_peer(voter.phase),
        store: Store::empty(voter.clock),
    }
}

// A node of 01's without its shares, its second pair and what it resends.
pub fn of_peer(node: Node) -> Voter
    ensures { result ≡ of_peer node }
{
    Voter {
        phase: of_peer_phase(node.phase),
        clock: node.store.clock,
    }
}

// The record of a node at the start.
pub fn first_record(compromised: u16, i: u8) -> Voter
    ensures { result ≡ of_peer (first_record compromised i) }
{
    of_peer(effects::first_record(compromised, i))
}

fn first(shares: Pairs) -> Option<Pair>
    ensures { result ≡ first_of shares }
{
    match shares {
        Pairs::Zero => None,
        Pairs::One(p) | Pairs::Two(p, _) => Some(p),
    }
}

// An event at a node: what it makes of the phase is what it makes of 01's, and in the place of shares there is one message.
#[tactic(auto, unfolding(crate::specs::Voter::voted))]
pub fn vote(breaker: Breaker, voter: Voter, t: Dts, event: Event) -> Voted
    ensures { result ≡ voted breaker voter t event }
{
    let left = change(breaker, phase_in_peer(voter.phase), t, in_peer(event));
    Voted {
        voter: Voter {
            phase: of_peer_phase(left.phase),
            clock: t,
        },
        message: first(left.shares),
    }
}
