// The line of something said to the breaker, and of steps that send nothing.
ghost use Rattle.std.specs.Prelude.{◌≡◌};
ghost use Rattle.refusals.specs.Tests.{number_in};
ghost use Rattle.text.specs.Lines.{line_bytes, line_next};
ghost use Rattle.run.specs.laws.Arms.{other_text, told_text};

use pairs::Pairs;
use refusals::Refusal;
use site::{Sent, Site};
use text::line::{put_loud, put_quiet, shown_stamp, shown_status};

// The line of something said to the breaker that is done, the site being the one afterwards.
pub fn put_told(out: &mut [u8], put: usize, line: u64, site: Site) -> usize
    ensures { (out.new ≡ line_bytes out.old put (told_text line site)) × (result ≡ line_next out.old put (told_text line site)) }
{
    let status = shown_status(site);
    let stamp = shown_stamp(site);
    let pair = site.breaker.pair;
    let sent = Sent {
        shares: Pairs::Zero,
        commands: Pairs::Zero,
        ack: Some(pair),
    };
    put_loud(out, put, line, status, stamp, 0, sent)
}

// The number that an answer has in its line.
fn shown_number(answer: Result<(), Refusal>) -> u8
    ensures { result ≡ number_in answer }
{
    match answer {
        Ok(_) => 0,
        Err(refusal) => refusal.number(),
    }
}

// The line of any other step that sends nothing, and of one that is refused or malformed.
pub fn put_other(
    out: &mut [u8],
    put: usize,
    line: u64,
    site: Site,
    answer: Result<(), Refusal>,
) -> usize
    ensures { (out.new ≡ line_bytes out.old put (other_text line site (number_in answer))) × (result ≡ line_next out.old put (other_text line site (number_in answer))) }
{
    let status = shown_status(site);
    let stamp = shown_stamp(site);
    put_quiet(out, put, line, shown_number(answer), status, stamp)
}
