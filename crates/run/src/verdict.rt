// The verdict of 16 as a loop keeps it: one of the site, and a set of those records that are in their ranges. The second pair is asked where a node acts.
ghost use Rattle.std.specs.Prelude.{◌≡◌, ◌&&◌, ◌||◌, length, if◌then◌else◌, nat_le};
ghost use Rattle.senders.specs.Masks.{is_in, joined};
ghost use Rattle.node.specs.Asked.{second_sound};
ghost use Rattle.site.specs.Site.{nodes};
ghost use Rattle.starting.specs.laws.Judging.{kept, actor_in_range, Judging};

use node::asked::{is_in_range, is_second_sound};
use node::{Node, Phase};
use refusals::Refusal;
use site::Site;
use site::sound::nodes;

// How many records a run keeps.
pub const RECORDS: u8 = 12;

// The set of those records that are in their ranges, with one more asked.
fn with_fit(fits: u16, site: Site, node: Node, i: u8) -> u16
    ensures { result ≡ (if actor_in_range site node i then joined fits i else fits) }
{
    let n = nodes(site.f, site.k);
    let in_range = is_in_range(node, n);
    if (n <= i as u32) | in_range {
        senders::join(fits, i)
    } else {
        fits
    }
}

// Which of the records are in their ranges.
pub fn judge(site: Site, nodes: [Node; 12]) -> u16
    ensures { (length nodes ≡ kept) × Judging site nodes kept result }
{
    let mut fits = 0;
    for i in 0..RECORDS {
        fits = with_fit(fits, site, nodes[i as usize], i);
    }
    fits
}

// The verdict where node i of a site acts, with the phase that it finds.
pub fn is_fit(whole: bool, fits: u16, f: u8, k: u8, phase: Phase, i: u8) -> bool
    ensures { result ≡ (whole && is_in fits i && (nat_le (nodes f k) i || second_sound phase)) }
{
    let fit = senders::is_in(fits, i);
    if is_second_sound(phase) {
        return whole & fit;
    }
    let n = nodes(f, k);
    whole & fit & (n <= i as u32)
}

// The refusal of a step of a node that has no record.
pub fn outside(whole: bool) -> Refusal
    ensures { result ≡ (if whole then Refusal.BadNumber else Refusal.Unsound) }
{
    if whole {
        Refusal::BadNumber
    } else {
        Refusal::Unsound
    }
}
