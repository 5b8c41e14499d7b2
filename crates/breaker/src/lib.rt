// The breaker: its status and stamp, its last clock, and the last eight changes.
#![tactic(auto)]

ghost use Rattle.std.specs.Prelude.{◌≡◌};
ghost use Rattle.std.specs.List.{list_all};
ghost use Rattle.breaker.specs.Breaker.{remembered, started, answered, changed, after_command, change_at, pair_sound, changes_sound, breaker_sound};

use pairs::Pair;
use time::{Dts, LAST_HELD_CLOCK, LAST_HELD_STAMP};

// Changes, the newest first. An array with a count: there is no heap in the model, and a lent breaker may have any count, which 16 judges (`changes_sound`).
#[derive(Clone, Copy)]
pub struct Changes {
    pub pairs: [Pair; 8],
    pub count: u8,
}

#[derive(Clone, Copy)]
pub struct Breaker {
    pub pair: Pair,
    pub clock: Dts,
    pub changes: Changes,
}

// A breaker at the start: its stamp is g, with no change remembered.
#[tactic(auto, unfolding(crate::specs::Breaker::started, tables::specs::Tables::table))]
pub fn start(status: u8, g: Dts) -> Breaker
    ensures { result ≡ started status g }
{
    let none = Pair {
        status: 0,
        stamp: Dts(0),
    };
    Breaker {
        pair: Pair { status, stamp: g },
        clock: g,
        changes: Changes {
            pairs: [none; 8],
            count: 0,
        },
    }
}

// One change more: the ninth is forgotten.
#[tactic(auto, unfolding(crate::specs::Breaker::remembered, tables::specs::Tables::table))]
fn remember(changes: Changes, pair: Pair) -> Changes
    ensures { result ≡ remembered changes pair }
{
    let mut pairs = changes.pairs;
    pairs.copy_within(..7, 1);
    pairs[0] = pair;
    Changes {
        pairs,
        count: changes.count.min(7) + 1,
    }
}

// The breaker after it has heard something at its clock t that does not change it, as a command for the status that it has.
#[tactic(auto, unfolding(crate::specs::Breaker::answered))]
pub fn answer(breaker: Breaker, t: Dts) -> Breaker
    ensures { result ≡ answered breaker t }
{
    Breaker {
        clock: t,
        ..breaker
    }
}

// The breaker after it has changed to another status, by what is stamped so.
#[tactic(auto, unfolding(crate::specs::Breaker::changed))]
pub fn change(breaker: Breaker, t: Dts, status: u8, stamp: Dts) -> Breaker
    ensures { result ≡ changed breaker t status stamp }
{
    let pair = Pair {
        status,
        stamp: time::larger(stamp, t),
    };
    Breaker {
        pair,
        clock: t,
        changes: remember(breaker.changes, pair),
    }
}

// The breaker after an accepted command.
#[tactic(auto, unfolding(crate::specs::Breaker::after_command))]
pub fn command(breaker: Breaker, t: Dts, status: u8, stamp: Dts) -> Breaker
    ensures { result ≡ after_command breaker t status stamp }
{
    if status == breaker.pair.status {
        answer(breaker, t)
    } else {
        change(breaker, t, status, stamp)
    }
}

// A change by its number from the newest, 0, where it is remembered.
#[tactic(auto, unfolding(crate::specs::Breaker::change_at))]
pub fn change_at(breaker: Breaker, back: u8) -> Option<Pair>
    ensures { result ≡ change_at breaker back }
{
    if breaker.changes.count <= back {
        return None;
    }
    breaker.changes.pairs.get(back as usize).copied()
}

fn is_pair_sound(pair: Pair) -> bool
    ensures { result ≡ pair_sound pair }
{
    (pair.status <= 1) & (pair.stamp.0 <= LAST_HELD_STAMP)
}

fn are_pairs_sound(pairs: [Pair; 8]) -> bool
    ensures { result ≡ list_all pair_sound pairs }
{
    pairs.iter().all(|pair| is_pair_sound(*pair))
}

#[tactic(auto, unfolding(crate::specs::Breaker::changes_sound, tables::specs::Tables::table))]
fn are_changes_sound(changes: Changes) -> bool
    ensures { result ≡ changes_sound changes }
{
    (changes.count <= 8) & are_pairs_sound(changes.pairs)
}

// Whether every number of a breaker is in its range.
#[tactic(auto, unfolding(crate::specs::Breaker::breaker_sound))]
pub fn is_sound(breaker: Breaker) -> bool
    ensures { result ≡ breaker_sound breaker }
{
    is_pair_sound(breaker.pair)
        & (breaker.clock.0 <= LAST_HELD_CLOCK)
        & are_changes_sound(breaker.changes)
}
