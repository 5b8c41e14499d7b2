// A Start as the loop of a run does it: over a table of twelve records by value, with the verdict of 16 that the loop keeps, which a Start alone renews.
#![tactic(auto)]

ghost use Rattle.std.specs.Prelude.{◌≡◌};
ghost use Rattle.starting.specs.laws.Begun.{begun_by};

use loans::Peers;
use node::Node;
use refusals::Refusal;
use site::Site;
use steps::Beginning;

// What a Start leaves that is done.
#[derive(Clone, Copy)]
pub struct Begun {
    pub site: Site,
    pub nodes: [Node; 12],
    pub whole: bool,
    pub fits: u16,
}

// A Start over a table of twelve. The records that it makes all pass 16, and those from n on are not asked.
pub fn start(mut nodes: [Node; 12], b: Beginning) -> Result<Begun, Refusal>
    ensures { result ≡ begun_by nodes b }
{
    refusing::refuse_start(12, b)?;
    let fresh = effects::fresh_site(b);
    let n = site::sound::nodes(b.f, b.k);
    loans::fill::<Peers>(&mut nodes, n as usize, b.compromised);
    Ok(Begun {
        site: fresh,
        nodes,
        whole: true,
        fits: 65535,
    })
}
