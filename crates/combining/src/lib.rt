// The combining rule, and the end of an event.
#![tactic(auto)]

ghost use Rattle.std.specs.Prelude.{◌≡◌};
ghost use Rattle.combining.specs.Combining.{commanding, combined, ended, put_all, followed, finished};

use node::asked::is_attempt;
use node::{Acted, Changed, Node, Phase, Record};
use pairs::{Pair, Pairs};
use store::Store;
use time::Dts;

// A record after the combining rule, and the command that it sends.
#[derive(Clone, Copy)]
pub struct Combined {
    pub rec: Record,
    pub command: Option<Pair>,
}

// A phase at the end of an event, and the command that the combining rule sends. What comes first is a record there and a phase here, and is called so in the
// definitions and the laws (`combined`, `ended`): one type for both would call it neither.
#[derive(Clone, Copy)]
pub struct Ended {
    pub phase: Phase,
    pub command: Option<Pair>,
}

fn command(rec: Record, stamp: Dts) -> Combined
    ensures { result ≡ commanding rec (Some stamp) }
{
    let sent = Pair {
        status: rec.r.status,
        stamp,
    };
    Combined {
        rec: Record {
            b: sent,
            resend: Some(stamp),
            ..rec
        },
        command: Some(sent),
    }
}

#[tactic(auto, unfolding(crate::specs::Combining::combined))]
pub fn combine(rec: Record, store: Store, f: u8) -> Combined
    ensures { result ≡ combined rec store f }
{
    if is_attempt(rec.r, rec.b) {
        if let Some(stamp) = store.earliest(rec.r.status, rec.b.stamp, f) {
            return command(rec, stamp);
        }
    }
    Combined { rec, command: None }
}

fn end(phase: Phase, store: Store, f: u8) -> Ended
    ensures { result ≡ ended phase store f }
{
    let Phase::Running(rec) = phase else {
        return Ended {
            phase,
            command: None,
        };
    };
    let after = combine(rec, store, f);
    Ended {
        phase: Phase::Running(after.rec),
        command: after.command,
    }
}

// The store with shares of a sender's. Inlined: as a function of its own it is given stores by their place in memory, and a step would copy the site's and the node's
// once more each, 28 instructions of some 660.
#[tactic(auto, unfolding(crate::specs::Combining::put_all))]
#[inline(always)]
pub fn put_all(store: Store, sender: u8, shares: Pairs) -> Store
    ensures { result ≡ put_all store sender shares }
{
    match shares {
        Pairs::Zero => store,
        Pairs::One(p) => store.put(sender, p.status, p.stamp),
        Pairs::Two(p, q) => store
            .put(sender, p.status, p.stamp)
            .put(sender, q.status, q.stamp),
    }
}

// The commands of a step: the event's own, then that of the combining rule.
fn follow(before: Option<Pair>, command: Option<Pair>) -> Pairs
    ensures { result ≡ followed before command }
{
    match (before, command) {
        (Some(p), Some(q)) => Pairs::Two(p, q),
        (Some(p), None) => Pairs::One(p),
        (None, Some(q)) => Pairs::One(q),
        (None, None) => Pairs::Zero,
    }
}

// The end of an event at node i, which changed the phase so and left this store.
pub fn finish(change: Changed, store: Store, i: u8, f: u8) -> Acted
    ensures { result ≡ finished change store i f }
{
    let own = match change.shares {
        Pairs::Zero => store,
        shares => put_all(store, i, shares),
    };
    let at_end = end(change.phase, own, f);
    Acted {
        node: Node {
            phase: at_end.phase,
            store: own,
        },
        shares: change.shares,
        commands: follow(change.command, at_end.command),
    }
}
