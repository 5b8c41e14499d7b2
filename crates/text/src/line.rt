// A line: number, refusal, the breaker, and what was sent.
ghost use Rattle.std.specs.Prelude.{◌+◌, ◌*◌, ◌<◌, ◌≡◌, [], ◌∷◌, leb};
ghost use Rattle.text.specs.Outputs.{HasRoom, Put, node_room};
ghost use Rattle.text.specs.Decimal.{decimal};
ghost use Rattle.text.specs.Line.{letter, pair_text, node_text, lettered, all_lettered, after_commas, head_with, tail_text, line_with, message_tail, message_line, shown_status, shown_stamp};
ghost use Rattle.text.specs.Lines.{longest_line, sent_messages, line_bytes, line_next};

use crate::{put_few, put_number};
use pairs::{Pair, Pairs};
use site::{Sent, Site};

// Room for this many bytes is asked for before a line: no line is longer.
pub const LONGEST_LINE: usize = 256;

fn letter(status: u8) -> u8
    ensures { result ≡ letter status }
{
    if status == 0 { b'C' } else { b'T' }
}

// Where text is put: a lent buffer, and the place of the next byte in it. Its methods are inlined, so that both stay in registers.
#[derive(Drop)]
struct Output<'a> {
    bytes: &'a mut [u8],
    at: usize,
}

impl Output<'_> {
    #[inline(always)]
    fn put_number(&mut self, n: u64)
        requires { HasRoom self.old 20 }
        ensures same { self.new.bytes.ghost_name ≡ self.old.bytes.ghost_name }
        ensures text { Put self.old (decimal n) self.new }
    {
        self.at = put_number(self.bytes, self.at, n);
    }

    // A number of at most four digits.
    #[inline(always)]
    fn put_few(&mut self, n: u32)
        requires below { n < 10000 }
        requires room { HasRoom self.old 4 }
        ensures same { self.new.bytes.ghost_name ≡ self.old.bytes.ghost_name }
        ensures text { Put self.old (decimal n) self.new }
    {
        self.at = put_few(self.bytes, self.at, n);
    }

    #[inline(always)]
    fn put_byte(&mut self, byte: u8)
        requires { HasRoom self.old 1 }
        ensures same { self.new.bytes.ghost_name ≡ self.old.bytes.ghost_name }
        ensures text { Put self.old (byte ∷ []) self.new }
    {
        self.bytes[self.at] = byte;
        self.at += 1;
    }

    // A status, an at sign and a stamp.
    #[inline(always)]
    fn put_stamped(&mut self, pair: Pair)
        requires { HasRoom self.old 22 }
        ensures same { self.new.bytes.ghost_name ≡ self.old.bytes.ghost_name }
        ensures text { Put self.old (pair_text pair) self.new }
    {
        self.put_byte(letter(pair.status));
        self.put_byte(b'@');
        self.put_number(pair.stamp.0 as u64);
    }

    // The number of a node, where one is named.
    #[inline(always)]
    fn put_node(&mut self, node: Option<u8>)
        requires { HasRoom self.old (node_room node) }
        ensures same { self.new.bytes.ghost_name ≡ self.old.bytes.ghost_name }
        ensures text { Put self.old (node_text node) self.new }
    {
        match node {
            Some(i) => self.put_number(i as u64),
            None => {}
        }
    }

    // A comma, a letter, the node of a share, and a pair.
    #[inline(always)]
    fn put_pair(&mut self, first: u8, node: Option<u8>, pair: Pair)
        requires { HasRoom self.old (24 + node_room node) }
        ensures same { self.new.bytes.ghost_name ≡ self.old.bytes.ghost_name }
        ensures text { Put self.old (lettered first node pair) self.new }
    {
        self.put_byte(b',');
        self.put_byte(first);
        self.put_node(node);
        self.put_stamped(pair);
    }

    #[inline(always)]
    fn put_pairs(&mut self, first: u8, node: Option<u8>, pairs: Pairs)
        requires { HasRoom self.old (2 * (24 + node_room node)) }
        ensures same { self.new.bytes.ghost_name ≡ self.old.bytes.ghost_name }
        ensures text { Put self.old (all_lettered first node pairs) self.new }
    {
        match pairs {
            Pairs::Zero => {}
            Pairs::One(p) => self.put_pair(first, node, p),
            Pairs::Two(p, q) => {
                self.put_pair(first, node, p);
                self.put_pair(first, node, q);
            }
        }
    }

    // Everything that was sent, each message with a comma in front.
    #[inline(always)]
    fn put_sent(&mut self, i: u8, sent: Sent)
        requires { HasRoom self.old 160 }
        ensures same { self.new.bytes.ghost_name ≡ self.old.bytes.ghost_name }
        ensures text { Put self.old (after_commas i (sent_messages sent)) self.new }
    {
        self.put_pairs(b'S', Some(i), sent.shares);
        self.put_pairs(b'C', None, sent.commands);
        match sent.ack {
            Some(p) => self.put_pair(b'A', None, p),
            None => {}
        }
    }

    #[inline(always)]
    fn put_head(&mut self, number: u64, refusal: u8, status: u8, stamp: u32)
        requires { HasRoom self.old 64 }
        ensures same { self.new.bytes.ghost_name ≡ self.old.bytes.ghost_name }
        ensures text { Put self.old (head_with number refusal status stamp) self.new }
    {
        self.put_number(number);
        self.put_byte(b' ');
        self.put_few(refusal as u32);
        self.put_byte(b' ');
        self.put_byte(status);
        self.put_byte(b' ');
        self.put_number(stamp as u64);
    }

    // The end of a line with nothing sent.
    #[inline(always)]
    fn put_nothing(&mut self)
        requires { HasRoom self.old 3 }
        ensures same { self.new.bytes.ghost_name ≡ self.old.bytes.ghost_name }
        ensures text { Put self.old (32 ∷ 45 ∷ 10 ∷ []) self.new }
    {
        self.put_byte(b' ');
        self.put_byte(b'-');
        self.put_byte(b'\n');
    }

    // What was sent, from the place of the space before it to the line's end.
    #[inline(always)]
    fn put_tail(&mut self, i: u8, sent: Sent)
        requires { HasRoom self.old 163 }
        ensures same { self.new.bytes.ghost_name ≡ self.old.bytes.ghost_name }
        ensures text { Put self.old (tail_text i (sent_messages sent)) self.new }
    {
        let space = self.at;
        self.put_sent(i, sent);
        if self.at == space {
            self.put_nothing();
        } else {
            self.bytes[space] = b' ';
            self.put_byte(b'\n');
        }
    }

    // A space, a message of node i, and the line's end.
    #[inline(always)]
    fn put_vote(&mut self, i: u8, pair: Pair)
        requires { HasRoom self.old 46 }
        ensures same { self.new.bytes.ghost_name ≡ self.old.bytes.ghost_name }
        ensures text { Put self.old (message_tail i pair) self.new }
    {
        self.put_byte(b' ');
        self.put_byte(b'M');
        self.put_number(i as u64);
        self.put_stamped(pair);
        self.put_byte(b'\n');
    }
}

pub fn shown_status(site: Site) -> u8
    ensures { result ≡ shown_status site }
{
    if site.started {
        letter(site.breaker.pair.status)
    } else {
        b'-'
    }
}

pub fn shown_stamp(site: Site) -> u32
    ensures { result ≡ shown_stamp site }
{
    if site.started {
        site.breaker.pair.stamp.0
    } else {
        0
    }
}

// Whether so many bytes leave room for the longest line at a place.
fn has_room(size: usize, at: usize) -> bool
    ensures { result ≡ leb (at + longest_line) size }
{
    if size < LONGEST_LINE {
        return false;
    }
    at <= size - LONGEST_LINE
}

// Puts the line of a step that sent nothing, where there is room for the longest; otherwise nothing is written, and the place handed back is the
// one given. The three that follow have their own ends of a line and each a theorem of its own; one function with the end handed in would be no shorter.
pub fn put_quiet(
    out: &mut [u8],
    at: usize,
    number: u64,
    refusal: u8,
    status: u8,
    stamp: u32,
) -> usize
    ensures { (out.new ≡ line_bytes out.old at (line_with number refusal status stamp 0 [])) × (result ≡ line_next out.old at (line_with number refusal status stamp 0 [])) }
{
    if has_room(out.len(), at) {
        let mut line = Output { bytes: out, at };
        line.put_head(number, refusal, status, stamp);
        line.put_nothing();
        return line.at;
    }
    at
}

// The same for a step that was done, with what it sent.
pub fn put_loud(
    out: &mut [u8],
    at: usize,
    number: u64,
    status: u8,
    stamp: u32,
    i: u8,
    sent: Sent,
) -> usize
    ensures { (out.new ≡ line_bytes out.old at (line_with number 0 status stamp i (sent_messages sent))) × (result ≡ line_next out.old at (line_with number 0 status stamp i (sent_messages sent))) }
{
    if has_room(out.len(), at) {
        let mut line = Output { bytes: out, at };
        line.put_head(number, 0, status, stamp);
        line.put_tail(i, sent);
        return line.at;
    }
    at
}

// The same for a step of an Arbiter site that was done and sent the breaker a message.
pub fn put_message(
    out: &mut [u8],
    at: usize,
    number: u64,
    status: u8,
    stamp: u32,
    i: u8,
    pair: Pair,
) -> usize
    ensures { (out.new ≡ line_bytes out.old at (message_line number status stamp i pair)) × (result ≡ line_next out.old at (message_line number status stamp i pair)) }
{
    if has_room(out.len(), at) {
        let mut line = Output { bytes: out, at };
        line.put_head(number, 0, status, stamp);
        line.put_vote(i, pair);
        return line.at;
    }
    at
}
