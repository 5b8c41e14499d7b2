// Clock readings in microseconds, discretised time stamps (DTS), and what is asked of them.
#![tactic(auto)]

ghost use Rattle.std.specs.Prelude.{◌≡◌};
ghost use Rattle.time.specs.Discretising.{added, discretised_by, discretised, default_interval, in_numbers, discretised_numbers};
ghost use Rattle.time.specs.Fresh.{fresh, next};
ghost use Rattle.time.specs.Larger.{larger};
ghost use Rattle.time.specs.Newer.{newer};

use refusals::Refusal;

// A clock reading, or an interval, in microseconds.
#[derive(Clone, Copy)]
pub struct Micros(pub u64);

// A discretised time stamp.
#[derive(Clone, Copy, PartialEq, Eq, PartialOrd, Ord)]
pub struct Dts(pub u32);

// How a reading becomes a whole number of intervals.
#[derive(Clone, Copy)]
pub enum Rounding {
    Down,
    Nearest,
}

pub const SHORTEST_INTERVAL: u64 = 1000;

pub const LONGEST_INTERVAL: u64 = 10000;

pub const DEFAULT_INTERVAL: u64 = 1000;

// How far a fresh stamp is from the clock at most.
pub const WINDOW: u64 = 2;

// The largest stamp that discretising gives.
pub const LAST_STAMP: u64 = 1000000000;

// The largest stamp, and the largest clock, that a site or a node can come to hold.
pub const LAST_HELD_STAMP: u32 = 1000000003;

pub const LAST_HELD_CLOCK: u32 = 1000000003;

// What a rounding adds before it divides.
fn added(rounding: Rounding, width: u64) -> u64
    ensures { result ≡ added rounding width }
{
    match rounding {
        Rounding::Down => 0,
        Rounding::Nearest => width / 2,
    }
}

// A reading with what is added may have more than 64 bits: it is divided first, and the remainder is rounded.
pub fn discretise_by(rounding: Rounding, reading: Micros, interval: Micros) -> Result<Dts, Refusal>
    ensures answer { result ≡ discretised_by rounding reading interval }
    ensures numbers { in_numbers result ≡ discretised_numbers rounding reading interval }
{
    let width = interval.0;
    if width < SHORTEST_INTERVAL {
        return Err(Refusal::BadStart);
    }
    if LONGEST_INTERVAL < width {
        return Err(Refusal::BadStart);
    }
    let reading = reading.0;
    let more = added(rounding, width);
    let stamp = reading / width + (reading % width + more) / width;
    if LAST_STAMP < stamp {
        return Err(Refusal::LastClock);
    }
    Ok(Dts(stamp as u32))
}

// For whoever names no rounding: down.
pub fn discretise(reading: Micros, interval: Micros) -> Result<Dts, Refusal>
    ensures answer { result ≡ discretised reading interval }
    ensures numbers { in_numbers result ≡ discretised_numbers Rounding.Down reading interval }
{
    discretise_by(Rounding::Down, reading, interval)
}

// For whoever names no interval either.
pub fn discretise_by_default(reading: Micros) -> Result<Dts, Refusal>
    ensures answer { result ≡ discretised reading default_interval }
    ensures numbers { in_numbers result ≡ discretised_numbers Rounding.Down reading default_interval }
{
    discretise(reading, Micros(DEFAULT_INTERVAL))
}

// The stamp that document 01 gives with an answer: 0 where the reading is refused.
pub fn stamp_of(discretised: Result<Dts, Refusal>) -> Dts
    ensures { result ≡ (in_numbers discretised).stamp }
{
    match discretised {
        Ok(stamp) => stamp,
        Err(_) => Dts(0),
    }
}

// Whether a stamp is fresh at a clock.
pub fn is_fresh(stamp: Dts, clock: Dts) -> bool
    ensures { result ≡ fresh stamp clock }
{
    let s = stamp.0 as u64;
    let t = clock.0 as u64;
    (t <= s + WINDOW) & (s <= t + WINDOW)
}

// The stamp after one: stamps have 32 bits and wrap, which no step of a site comes near.
#[tactic(auto, unfolding(crate::specs::Fresh::next))]
pub fn next(stamp: Dts) -> Dts
    ensures { result ≡ next stamp }
{
    Dts(stamp.0.wrapping_add(1))
}

// The larger of two stamps.
pub fn larger(a: Dts, b: Dts) -> Dts
    ensures { result ≡ larger a b }
{
    a.max(b)
}

// Whether a relay's state number is new after the last one.
pub fn is_newer(number: u32, last: u32) -> bool
    ensures { result ≡ newer number last }
{
    let ahead = number.wrapping_sub(last);
    (1 <= ahead) & (ahead <= 2147483647)
}
