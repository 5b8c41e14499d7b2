// The share store: for each action and each stamp that is fresh at the store's clock, the set of senders whose share is held. The store
// knows its clock, and a share is held only while its stamp is fresh there. An action and its stamp are two arguments: those who ask have them as fields of a step, of a
// message or of a pair, and a pair made for the call alone would say no more.
#![tactic(auto)]

ghost use Rattle.std.specs.Prelude.{◌<◌, ◌≡◌, IfSome, fold};
ghost use Rattle.senders.specs.Masks.{together};
ghost use Rattle.store.specs.Store.{place_of, empty, put, turn, moved_to, senders_of, store_within};
ghost use Rattle.store.specs.Earliest.{fresh_stamp, earliest};

use time::{Dts, WINDOW};

// The sets stand in front: a whole store is then read in memory as its parts were written, and the processor need not wait.
#[derive(Clone, Copy)]
pub struct Store {
    pub masks: [u16; 10],
    pub clock: Dts,
}

// Where the senders of an action and a stamp stand, if anywhere. A stamp's place goes by its remainder: five places for each action.
#[tactic(auto, unfolding(crate::specs::Store::place_of, crate::specs::Store::has_place))]
fn place_of(clock: Dts, action: u8, stamp: Dts) -> Option<usize>
    ensures is { result ≡ place_of clock action stamp }
    ensures fits { IfSome result (λ at. at < 10) }
{
    if action < 2 && time::is_fresh(stamp, clock) {
        Some(action as usize * 5 + (stamp.0 % 5) as usize)
    } else {
        None
    }
}

// How many remainders come before that of a place, from the one of the oldest stamp of the clock's window on.
#[tactic(auto, unfolding(crate::specs::Store::turn))]
fn turn(clock: Dts, at: u32) -> u32
    requires { at < 5 }
    ensures { result ≡ turn clock at }
{
    let oldest = (clock.0 % 5 + 3) % 5;
    (at + 5 - oldest) % 5
}

// The stamps that are fresh at a clock, counted from the oldest.
pub fn fresh_stamp(clock: Dts, i: u8) -> u64
    ensures { result ≡ fresh_stamp clock i }
{
    (clock.0 as u64 + i as u64).saturating_sub(WINDOW)
}

impl Store {
    // A store that holds nothing.
    #[tactic(auto, unfolding(crate::specs::Store::empty, tables::specs::Tables::table))]
    pub fn empty(clock: Dts) -> Store
        ensures { result ≡ empty clock }
    {
        Store {
            clock,
            masks: [0u16; 10],
        }
    }

    // The store with a sender's share: unchanged where its stamp is not fresh, or the action or the sender has no place.
    #[tactic(auto, using(crate::specs::laws::Places::not_found, crate::specs::laws::Places::put_is), unfolding(crate::specs::Store::put))]
    pub fn put(mut self, sender: u8, action: u8, stamp: Dts) -> Store
        ensures { result ≡ put self sender action stamp }
    {
        if let Some(at) = place_of(self.clock, action, stamp) {
            self.masks[at] = senders::join(self.masks[at], sender);
        }
        self
    }

    // Who is held for an action and a stamp.
    #[tactic(auto, using(crate::specs::laws::Places::not_found, crate::specs::laws::Places::found), unfolding(crate::specs::Store::senders_of))]
    pub fn senders(self, action: u8, stamp: Dts) -> u16
        ensures { result ≡ senders_of self action stamp }
    {
        match place_of(self.clock, action, stamp) {
            Some(at) => self.masks[at],
            None => 0,
        }
    }

    // The store at a later clock: stamps no longer fresh are forgotten, and their room is used again. No clock goes back. The places that fall
    // out are cleared in the array that there is; after five or more none is left, and the store is an empty one.
    pub fn move_to(mut self, clock: Dts) -> Store
        ensures { result ≡ moved_to self clock }
    {
        let now = self.clock;
        if clock.0 <= now.0 {
            return self;
        }
        let by = clock.0 - now.0;
        if 5 <= by {
            return Store::empty(clock);
        }
        self.clock = clock;
        for at in 0..5 {
            if turn(now, at) < by {
                self.masks[at as usize] = 0;
                self.masks[at as usize + 5] = 0;
            }
        }
        self
    }

    // The earliest fresh stamp above a bound that is held from at least f + 1 senders for an action. A fresh stamp of an action has a place, and
    // its set is read there: to ask `senders` for each would copy the store each time.
    pub fn earliest(self, action: u8, above: Dts, f: u8) -> Option<Dts>
        ensures { result ≡ earliest self action above f }
    {
        if 2 <= action {
            return None;
        }
        let row = action as usize * 5;
        for i in 0..5 {
            let stamp = fresh_stamp(self.clock, i);
            if (above.0 as u64) < stamp
                && senders::is_enough(self.masks[row + (stamp % 5) as usize], f)
            {
                if let Ok(stamp) = u32::try_from(stamp) {
                    return Some(Dts(stamp));
                }
            }
        }
        None
    }

    // Whoever is held at any of the ten places.
    fn everybody(self) -> u16
        ensures { result ≡ fold together 0 self.masks }
    {
        self.masks
            .iter()
            .fold(0, |held, mask| senders::join_all(held, *mask))
    }

    // Whether every sender that the store holds, at whatever place, is below n.
    pub fn is_within(self, n: u32) -> bool
        ensures { result ≡ store_within self n }
    {
        senders::is_within(self.everybody(), n)
    }
}
