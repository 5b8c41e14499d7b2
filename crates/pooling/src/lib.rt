// What a store holds for an action over all its fresh stamps above a bound, taken together.
#![tactic(auto)]

ghost use Rattle.std.specs.Prelude.{◌<◌, ◌≡◌};
ghost use Rattle.store.specs.Earliest.{fresh_stamp};
ghost use Rattle.pooling.specs.Pooling.{added, pooled};

use store::Store;
use time::Dts;

// Whoever is held at one of those stamps or another, and the latest of the stamps at which somebody is: 0 where nobody is.
#[derive(Clone, Copy)]
pub struct Pool {
    pub senders: u16,
    pub latest: Dts,
}

// The pool with one more fresh stamp, the i-th from the oldest.
#[tactic(auto, unfolding(crate::specs::Pooling::added, store::specs::Earliest::qualifies))]
fn add(pool: Pool, store: Store, action: u8, above: Dts, i: u8) -> Pool
    ensures { result ≡ added store action above pool (fresh_stamp store.clock i) }
{
    let stamp = store::fresh_stamp(store.clock, i);
    if stamp <= above.0 as u64 {
        return pool;
    }
    let Ok(stamp) = u32::try_from(stamp) else {
        return pool;
    };
    let latest = Dts(stamp);
    let there = store.senders(action, latest);
    if senders::is_enough(there, 0) {
        Pool {
            senders: senders::join_all(pool.senders, there),
            latest,
        }
    } else {
        pool
    }
}

pub fn gather(store: Store, action: u8, above: Dts) -> Pool
    ensures { result ≡ pooled store action above }
{
    let mut pool = Pool {
        senders: 0,
        latest: Dts(0),
    };
    for i in 0..5 {
        pool = add(pool, store, action, above, i);
    }
    pool
}
