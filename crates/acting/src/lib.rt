// An event at a node, to its end.
#![tactic(auto)]

ghost use Rattle.std.specs.Prelude.{◌≡◌};
ghost use Rattle.acting.specs.Acting.{acked_by, changed_by, stored, acted};

use breaker::Breaker;
use node::{Acted, Changed, Node, Phase};
use pairs::Pair;
use steps::Event;
use store::Store;
use time::Dts;

// An ack brings a change, if it is remembered.
fn ack(phase: Phase, change: Option<Pair>) -> Changed
    ensures { result ≡ acked_by phase change }
{
    match change {
        Some(pair) => events::ack(phase, pair),
        None => events::unchanged(phase),
    }
}

// What an event makes of the phase that it finds.
#[tactic(auto, unfolding(crate::specs::Acting::changed_by))]
pub fn change(breaker: Breaker, phase: Phase, t: Dts, event: Event) -> Changed
    ensures { result ≡ changed_by breaker phase t event }
{
    match event {
        Event::Report { status, number } => events::report(phase, t, status, number),
        Event::Deliver { .. } | Event::DeliverPair { .. } => events::unchanged(phase),
        Event::ShareTimeout => events::share_timeout(phase, t),
        Event::ResendTimeout => events::resend_timeout(phase, t),
        Event::Ack { back } => ack(phase, breaker::change_at(breaker, back)),
        Event::Query => events::query(phase, breaker.pair),
    }
}

// The store at the clock of an event, with the share or the pair that it delivers. The store takes the fresh ones.
#[tactic(auto, unfolding(crate::specs::Acting::stored))]
fn hold(phase: Phase, store: Store, t: Dts, event: Event) -> Store
    ensures { result ≡ stored phase store t event }
{
    let now = events::store_at(phase, store, t);
    match event {
        Event::Deliver {
            sender,
            status,
            stamp,
        } => now.put(sender, status, stamp),
        Event::DeliverPair {
            sender,
            status,
            stamp,
        } => now
            .put(sender, status, time::next(stamp))
            .put(sender, status, stamp),
        _ => now,
    }
}

// An event at node i of a site whose threshold is f + 1.
#[tactic(auto, unfolding(crate::specs::Acting::acted))]
pub fn act(breaker: Breaker, node: Node, i: u8, f: u8, t: Dts, event: Event) -> Acted
    ensures { result ≡ acted breaker node i f t event }
{
    let store = hold(node.phase, node.store, t, event);
    let after = change(breaker, node.phase, t, event);
    combining::finish(after, store, i, f)
}
