// A line of sitelog's output, written into a lent buffer: here its numbers, in `line` the line. Each function here writes from a place on and hands
// back the place after what it wrote: as methods of an `Output` they would read the buffer and the place from memory again after each byte, and a step
// would take a sixth more instructions.
#![tactic(auto)]

pub mod line;

ghost use Rattle.std.specs.Prelude.{◌+◌, ◌≤◌, ◌<◌, length};
ghost use Rattle.text.specs.Puts.{Puts};
ghost use Rattle.text.specs.Decimal.{spelled, decimal};

fn put_digit(out: &mut [u8], at: usize, n: u32) -> usize
    requires { (n < 10) × (at + 1 ≤ length out.old) }
    ensures { Puts out.old at (decimal n) out.new result }
{
    out[at] = n as u8 + 48;
    at + 1
}

fn put_two(out: &mut [u8], at: usize, n: u32) -> usize
    requires { (n < 100) × (at + 2 ≤ length out.old) }
    ensures { Puts out.old at (spelled 2 n) out.new result }
{
    let pair = n as u8;
    out[at] = pair / 10 + 48;
    out[at + 1] = pair % 10 + 48;
    at + 2
}

fn put_four(out: &mut [u8], at: usize, n: u32) -> usize
    requires { (n < 10000) × (at + 4 ≤ length out.old) }
    ensures { Puts out.old at (spelled 4 n) out.new result }
{
    let next = put_two(out, at, n / 100);
    put_two(out, next, n % 100)
}

fn put_eight(out: &mut [u8], at: usize, n: u32) -> usize
    requires { (n < 100000000) × (at + 8 ≤ length out.old) }
    ensures { Puts out.old at (spelled 8 n) out.new result }
{
    let next = put_four(out, at, n / 10000);
    put_four(out, next, n % 10000)
}

// A number of at most four digits.
fn put_few(out: &mut [u8], at: usize, n: u32) -> usize
    requires { (n < 10000) × (at + 4 ≤ length out.old) }
    ensures { Puts out.old at (decimal n) out.new result }
{
    if n < 10 {
        return put_digit(out, at, n);
    }
    if n < 100 {
        return put_two(out, at, n);
    }
    if n < 1000 {
        let next = put_digit(out, at, n / 100);
        return put_two(out, next, n % 100);
    }
    put_four(out, at, n)
}

// A number of at most eight digits.
fn put_small(out: &mut [u8], at: usize, n: u32) -> usize
    requires { (n < 100000000) × (at + 8 ≤ length out.old) }
    ensures { Puts out.old at (decimal n) out.new result }
{
    if n < 10000 {
        return put_few(out, at, n);
    }
    let next = put_few(out, at, n / 10000);
    put_four(out, next, n % 10000)
}

// A number of more than eight digits.
fn put_large(out: &mut [u8], at: usize, n: u64) -> usize
    requires { (100000000 ≤ n) × (at + 20 ≤ length out.old) }
    ensures { Puts out.old at (decimal n) out.new result }
{
    let high = n / 100000000;
    let low = (n % 100000000) as u32;
    if high < 100000000 {
        let next = put_small(out, at, high as u32);
        return put_eight(out, next, low);
    }
    let next = put_few(out, at, (high / 100000000) as u32);
    let then = put_eight(out, next, (high % 100000000) as u32);
    put_eight(out, then, low)
}

// Inlined, so that a line calls `put_small` by itself: a step would take 25 instructions more.
#[inline(always)]
fn put_number(out: &mut [u8], at: usize, n: u64) -> usize
    requires { at + 20 ≤ length out.old }
    ensures { Puts out.old at (decimal n) out.new result }
{
    if n < 100000000 {
        return put_small(out, at, n as u32);
    }
    put_large(out, at, n)
}
