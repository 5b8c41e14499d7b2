// The steps that a site takes, in five shapes: a Start, a Tick, an event at a node at its clock, a turn in a node's life, something said to the
// breaker at its clock. A step is only what is asked for: the site says whether it is done or refused, and a log how it is written down.
#![tactic(auto)]

ghost use Rattle.std.specs.Prelude.{◌≡◌};
ghost use Rattle.steps.specs.Named.{named, actor_or0};

use time::Dts;

// What a Start gives.
#[derive(Clone, Copy)]
pub struct Beginning {
    pub f: u8,
    pub k: u8,
    pub compromised: u16,
    pub status: u8,
    pub g: Dts,
}

// What happens at a node, at its clock. A Deliver is at its receiver, and so is a pair, which stands for the shares of two stamps: the one that it has and the next.
#[derive(Clone, Copy)]
pub enum Event {
    Report { status: u8, number: u32 },
    Deliver { sender: u8, status: u8, stamp: Dts },
    DeliverPair { sender: u8, status: u8, stamp: Dts },
    ShareTimeout,
    ResendTimeout,
    Ack { back: u8 },
    Query,
}

// A turn in a node's life: no clock is read.
#[derive(Clone, Copy)]
pub enum Turn {
    Down,
    Up,
}

// What is said to the breaker, at its clock: a command. (Fields of an enum of one case are bound by no `match` here; with a second act it becomes one.)
#[derive(Clone, Copy)]
pub struct Act {
    pub status: u8,
    pub stamp: Dts,
}

#[derive(Clone, Copy)]
pub enum Step {
    Tick,
    Start(Beginning),
    AtNode { node: u8, t: Dts, event: Event },
    Life { node: u8, turn: Turn },
    AtBreaker { t: Dts, act: Act },
}

// The number of the node that a step names (for Deliver, the receiver), and 0 where it names none.
pub fn node_of(step: Step) -> u8
    ensures { result ≡ actor_or0 (named step).actor }
{
    match step {
        Step::AtNode { node, .. } | Step::Life { node, .. } => node,
        Step::Start(_) | Step::Tick | Step::AtBreaker { .. } => 0,
    }
}
