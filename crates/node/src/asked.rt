// What is asked of a node before an event reaches it.
ghost use Rattle.std.specs.Prelude.{◌≡◌};
ghost use Rattle.node.specs.State.{attempts};
ghost use Rattle.pairs.specs.Pair.{same, is_known};
ghost use Rattle.node.specs.Asked.{is_down, is_starting, is_running, known_b, is_new, new_after, in_attempt, armed, known_sound, resend_sound, learned_sound, record_sound, node_in_range, not_above, second_sound, node_sound};

use crate::{Learned, Node, Phase, Record};
use pairs::Pair;
use time::{Dts, LAST_HELD_CLOCK, LAST_HELD_STAMP};

// Done: the relay's status is the breaker's.
pub fn is_done(r: Pair, b: Pair) -> bool
    ensures { result ≡ same r b }
{
    r.status == b.status
}

// Attempt: the statuses differ, and the relay's stamp is no older.
pub fn is_attempt(r: Pair, b: Pair) -> bool
    ensures { result ≡ attempts r b }
{
    (r.status != b.status) & (b.stamp <= r.stamp)
}

pub fn is_down(node: Node) -> bool
    ensures { result ≡ is_down node }
{
    matches!(node.phase, Phase::Down)
}

pub fn is_starting(node: Node) -> bool
    ensures { result ≡ is_starting node }
{
    matches!(node.phase, Phase::Starting(_))
}

pub fn is_running(node: Node) -> bool
    ensures { result ≡ is_running node }
{
    matches!(node.phase, Phase::Running(_))
}

// What is known in a phase of the breaker's status and stamp, if anything.
pub fn known_b(phase: Phase) -> Option<Pair>
    ensures { result ≡ known_b phase }
{
    match phase {
        Phase::Down => None,
        Phase::Starting(learned) => learned.b,
        Phase::Running(rec) => Some(rec.b),
    }
}

fn is_new_after(number: u32, last: Option<u32>) -> bool
    ensures { result ≡ new_after number last }
{
    last.is_none_or(|known| time::is_newer(number, known))
}

// Whether a relay's state number is new to a node.
pub fn is_new(node: Node, number: u32) -> bool
    ensures { result ≡ is_new node number }
{
    match node.phase {
        Phase::Down => true,
        Phase::Starting(learned) => is_new_after(number, learned.number),
        Phase::Running(rec) => is_new_after(number, rec.number),
    }
}

// Whether a node runs and is in Attempt: then, and only then, its share timeout is armed.
pub fn is_in_attempt(node: Node) -> bool
    ensures { result ≡ in_attempt node }
{
    match node.phase {
        Phase::Running(rec) => is_attempt(rec.r, rec.b),
        _ => false,
    }
}

// Whether a node's resend timeout is armed.
pub fn is_armed(node: Node) -> bool
    ensures { result ≡ armed node }
{
    match node.phase {
        Phase::Running(rec) => rec.resend.is_some(),
        _ => false,
    }
}

// ---- no stamp or clock above the last that can be, no sender from n on

fn is_known_sound(known: Option<Pair>) -> bool
    ensures { result ≡ known_sound known }
{
    known.is_none_or(|pair| pair.stamp.0 <= LAST_HELD_STAMP)
}

fn is_resend_sound(resend: Option<Dts>) -> bool
    ensures { result ≡ resend_sound resend }
{
    resend.is_none_or(|stamp| stamp.0 <= LAST_HELD_STAMP)
}

fn is_record_sound(rec: Record) -> bool
    ensures { result ≡ record_sound rec }
{
    (rec.r.stamp.0 <= LAST_HELD_STAMP)
        & (rec.b.stamp.0 <= LAST_HELD_STAMP)
        & is_resend_sound(rec.resend)
        & is_known_sound(rec.second)
}

fn is_learned_sound(learned: Learned) -> bool
    ensures { result ≡ learned_sound learned }
{
    is_known_sound(learned.r) & is_known_sound(learned.b) & is_known_sound(learned.second)
}

// No step changes this part of what 16 asks.
#[tactic(auto, unfolding(crate::specs::Asked::node_in_range))]
pub fn is_in_range(node: Node, n: u32) -> bool
    ensures { result ≡ node_in_range node n }
{
    let held = (node.store.clock.0 <= LAST_HELD_CLOCK) & node.store.is_within(n);
    match node.phase {
        Phase::Down => held,
        Phase::Starting(learned) => held & is_learned_sound(learned),
        Phase::Running(rec) => held & is_record_sound(rec),
    }
}

// ---- the second pair

// Where both are known, the second pair is no later than b.
fn is_not_above(second: Option<Pair>, b: Option<Pair>) -> bool
    ensures { result ≡ not_above second b }
{
    match (second, b) {
        (Some(pair), Some(of_b)) => pair.stamp <= of_b.stamp,
        _ => true,
    }
}

pub fn is_second_sound(phase: Phase) -> bool
    ensures { result ≡ second_sound phase }
{
    match phase {
        Phase::Down => true,
        Phase::Starting(learned) => is_not_above(learned.second, learned.b),
        Phase::Running(rec) => rec.second.is_some() & is_not_above(rec.second, Some(rec.b)),
    }
}

#[tactic(auto, unfolding(crate::specs::Asked::node_sound))]
pub fn is_sound(node: Node, n: u32) -> bool
    ensures { result ≡ node_sound node n }
{
    is_in_range(node, n) & is_second_sound(node.phase)
}
