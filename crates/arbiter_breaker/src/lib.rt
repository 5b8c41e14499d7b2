// The breaker of the Arbiter Protocol: it holds the messages that reach it, and moves once enough senders ask for it.
#![tactic(auto)]

ghost use Rattle.std.specs.Prelude.{◌≡◌};
ghost use Rattle.arbiter_breaker.specs.Arbitrating.{other, received, decided, arbitrated};

use arbiter_steps::Message;
use breaker::Breaker;
use pairs::Pair;
use store::Store;
use time::Dts;

// What an accepted message leaves: the breaker, the messages that it holds, and the ack that it sends, if it moved.
#[derive(Clone, Copy)]
pub struct Arbitrated {
    pub breaker: Breaker,
    pub held: Store,
    pub ack: Option<Pair>,
}

// The action that a breaker with this status does not have.
#[tactic(auto, unfolding(crate::specs::Arbitrating::other))]
pub fn other(status: u8) -> u8
    ensures { result ≡ other status }
{
    u8::from(status == 0)
}

// The messages held, with one more, at the breaker's clock t.
#[tactic(auto, unfolding(crate::specs::Arbitrating::received))]
fn receive(held: Store, t: Dts, message: Message) -> Store
    ensures { result ≡ received held t message }
{
    held.move_to(t)
        .put(message.sender, message.status, message.stamp)
}

// Whether it moves, for the messages that it holds.
#[tactic(auto, unfolding(crate::specs::Arbitrating::decided))]
fn decide(breaker: Breaker, held: Store, f: u8, t: Dts) -> Arbitrated
    ensures { result ≡ decided breaker held f t }
{
    let action = other(breaker.pair.status);
    let pool = pooling::gather(held, action, breaker.pair.stamp);
    if senders::is_enough(pool.senders, f) {
        let after = breaker::change(breaker, t, action, pool.latest);
        Arbitrated {
            breaker: after,
            held,
            ack: Some(after.pair),
        }
    } else {
        Arbitrated {
            breaker: breaker::answer(breaker, t),
            held,
            ack: None,
        }
    }
}

// A message that is accepted at the breaker's clock t.
#[tactic(auto, unfolding(crate::specs::Arbitrating::arbitrated))]
pub fn arbitrate(breaker: Breaker, held: Store, f: u8, t: Dts, message: Message) -> Arbitrated
    ensures { result ≡ arbitrated breaker held f t message }
{
    decide(breaker, receive(held, t, message), f, t)
}
