// The line of an answer, put at the front of a buffer.
ghost use Rattle.std.specs.Prelude.{◌≡◌, []};
ghost use Rattle.text.specs.Line.{line_with, shown_status, shown_stamp};
ghost use Rattle.text.specs.Lines.{line_bytes, line_next};
ghost use Rattle.arbiter_calls.specs.Runs.{done_text, answer_text, malformed_text};

use pairs::Pairs;
use refusals::Refusal;
use site::{Answer, Sent, Site};
use text::line::{put_loud, put_message, put_quiet, shown_stamp, shown_status};

// The line of a step that was done: a message of node i, or what else it sent.
fn put_done(out: &mut [u8], number: u64, status: u8, stamp: u32, i: u8, sent: Sent) -> usize
    ensures { (out.new ≡ line_bytes out.old 0 (done_text number status stamp i sent)) × (result ≡ line_next out.old 0 (done_text number status stamp i sent)) }
{
    match sent.shares {
        Pairs::One(message) => put_message(out, 0, number, status, stamp, i, message),
        Pairs::Zero | Pairs::Two(_, _) => put_loud(out, 0, number, status, stamp, i, sent),
    }
}

pub fn put_answer(out: &mut [u8], number: u64, site: Site, i: u8, answer: Answer) -> usize
    ensures { (out.new ≡ line_bytes out.old 0 (answer_text number site i answer)) × (result ≡ line_next out.old 0 (answer_text number site i answer)) }
{
    let status = shown_status(site);
    let stamp = shown_stamp(site);
    match answer {
        Ok(sent) => put_done(out, number, status, stamp, i, sent),
        Err(refusal) => put_quiet(out, 0, number, refusal.number(), status, stamp),
    }
}

// A malformed call has a line with 17.
pub fn put_malformed(out: &mut [u8], number: u64, site: Site) -> usize
    ensures { (out.new ≡ line_bytes out.old 0 (malformed_text number site)) × (result ≡ line_next out.old 0 (malformed_text number site)) }
{
    let status = shown_status(site);
    let stamp = shown_stamp(site);
    put_quiet(out, 0, number, Refusal::Malformed.number(), status, stamp)
}
