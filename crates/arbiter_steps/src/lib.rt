// The steps of a site of the Arbiter Protocol, in the five shapes of 01's: a Start, a Tick, an event at a node at its clock, a turn in a node's life, a message
// to the breaker at its clock. There is no command, no Deliver to a node and no resend timeout.
#![tactic(auto)]

ghost use Rattle.std.specs.Prelude.{◌≡◌};
ghost use Rattle.arbiter_steps.specs.Steps.{in_peer};

use steps::{Beginning, Turn};
use time::Dts;

// What happens at a node, at its clock.
#[derive(Clone, Copy)]
pub enum Event {
    Report { status: u8, number: u32 },
    ShareTimeout,
    Ack { back: u8 },
    Query,
}

// What reaches the breaker: a status with the stamp that its sender gave it.
#[derive(Clone, Copy)]
pub struct Message {
    pub sender: u8,
    pub status: u8,
    pub stamp: Dts,
}

#[derive(Clone, Copy)]
pub enum Step {
    Tick,
    Start(Beginning),
    AtNode { node: u8, t: Dts, event: Event },
    Life { node: u8, turn: Turn },
    AtBreaker { t: Dts, message: Message },
}

// The event of 01's that it is.
pub fn in_peer(event: Event) -> steps::Event
    ensures { result ≡ in_peer event }
{
    match event {
        Event::Report { status, number } => steps::Event::Report { status, number },
        Event::ShareTimeout => steps::Event::ShareTimeout,
        Event::Ack { back } => steps::Event::Ack { back },
        Event::Query => steps::Event::Query,
    }
}
