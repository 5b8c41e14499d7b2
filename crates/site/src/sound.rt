// Refusal 16: whether a site, and the record of the acting node, are in their ranges.
ghost use Rattle.std.specs.Prelude.{◌≡◌};
ghost use Rattle.site.specs.Site.{nodes, numbers_sound, sets_sound, site_sound, actor_sound};

use crate::{FIRST_G, LAST_G, MOST_F, MOST_K, Site};
use node::Node;

// n = 2f + k + 1.
pub fn nodes(f: u8, k: u8) -> u32
    ensures { result ≡ nodes f k }
{
    2 * f as u32 + k as u32 + 1
}

fn are_numbers_sound(site: Site) -> bool
    ensures { result ≡ numbers_sound site }
{
    let g = site.made.clock.0;
    (site.f <= MOST_F) & (site.k <= MOST_K) & (FIRST_G..=LAST_G).contains(&g)
}

#[tactic(auto, unfolding(crate::specs::Site::sets_sound))]
fn are_sets_sound(site: Site, n: u32) -> bool
    ensures { result ≡ sets_sound site n }
{
    senders::is_within(site.compromised, n)
        & (senders::how_many(site.compromised) <= site.f as u32)
        & senders::is_within(site.down, n)
        & site.made.is_within(n)
}

// Whether a site has been started, has n records lent to it, and every number of it is in its range.
#[tactic(auto, unfolding(crate::specs::Site::site_sound))]
pub fn is_site_sound(site: Site, lent: usize) -> bool
    ensures { result ≡ site_sound site lent }
{
    let n = nodes(site.f, site.k);
    site.started
        & (n as usize <= lent)
        & are_numbers_sound(site)
        & are_sets_sound(site, n)
        & breaker::is_sound(site.breaker)
}

// Whether the acting node's record is in its range. A node from n on has no record.
#[tactic(auto, unfolding(crate::specs::Site::actor_sound))]
pub fn is_actor_sound(site: Site, node: Node, i: u8) -> bool
    ensures { result ≡ actor_sound site node i }
{
    let n = nodes(site.f, site.k);
    (n <= i as u32) | node::asked::is_sound(node, n)
}
