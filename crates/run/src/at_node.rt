// A step at a node: its tests, what it does, and its line, which is put by what came of it. Most steps send nothing.
ghost use Rattle.std.specs.Prelude.{◌≡◌};
ghost use Rattle.text.specs.Lines.{line_bytes};
ghost use Rattle.run.specs.laws.Arms.{is_none, acted_text, part_at, taken_with};

use crate::verdict::is_fit;
use node::Node;
use pairs::Pairs;
use site::{Sent, Site};
use steps::Event;
use store::Store;
use text::line::{put_loud, put_quiet, shown_stamp, shown_status};
use time::Dts;

// The shares that the site knows to be made, where something was sent: where nothing was they are as they were; the place after the line, and the record.
#[derive(Clone, Copy)]
pub struct Taken {
    pub made: Option<Store>,
    pub put: usize,
    pub node: Node,
}

fn is_none(pairs: Pairs) -> bool
    ensures { result ≡ is_none pairs }
{
    matches!(pairs, Pairs::Zero)
}

pub fn take(
    out: &mut [u8],
    put: usize,
    line: u64,
    whole: bool,
    fits: u16,
    site: Site,
    node: Node,
    i: u8,
    t: Dts,
    event: Event,
) -> Taken
    ensures { (out.new ≡ line_bytes out.old put (acted_text line site i (part_at whole fits site node i t event))) × (result ≡ taken_with out.old put line site node i (part_at whole fits site node i t event)) }
{
    let status = shown_status(site);
    let stamp = shown_stamp(site);
    let phase = node.phase;
    let sound = is_fit(whole, fits, site.f, site.k, phase, i);
    if let Err(refusal) = refusing::refuse_event(sound, site, node, i, t, event) {
        let next = put_quiet(out, put, line, refusal.number(), status, stamp);
        return Taken {
            made: None,
            put: next,
            node,
        };
    }
    let noted = effects::note(site, node, i, t, event);
    let shares = noted.shares;
    let commands = noted.commands;
    let no_shares = is_none(shares);
    let no_commands = is_none(commands);
    if no_shares & no_commands {
        let next = put_quiet(out, put, line, 0, status, stamp);
        return Taken {
            made: None,
            put: next,
            node: noted.node,
        };
    }
    let sent = Sent {
        shares,
        commands,
        ack: None,
    };
    let next = put_loud(out, put, line, status, stamp, i, sent);
    Taken {
        made: Some(noted.made),
        put: next,
        node: noted.node,
    }
}
