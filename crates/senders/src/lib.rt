// Sets of senders. A set is a mask of 16 bits: bit i is sender i. It stays a bare number, and no type of its own: a Start gives it as one (01), and what is shown of
// sets (Masks.antt, and all that counts in crates/sequences) is said of numbers.
#![tactic(auto)]

ghost use Rattle.std.specs.Prelude.{◌≡◌};
ghost use Rattle.senders.specs.Masks.{is_in, size, enough, joined, without, together, within};

// Whether a sender is in a set. Nobody from 16 on is.
pub fn is_in(mask: u16, sender: u8) -> bool
    ensures { result ≡ is_in mask sender }
{
    if 16 <= sender {
        return false;
    }
    (mask >> sender) % 2 == 1
}

// The set with a sender joined to it. Nobody from 16 on can join.
pub fn join(mask: u16, sender: u8) -> u16
    ensures { result ≡ joined mask sender }
{
    if 16 <= sender {
        return mask;
    }
    mask | (1u16 << sender)
}

// The set with a sender forgotten.
pub fn forget(mask: u16, sender: u8) -> u16
    ensures { result ≡ without mask sender }
{
    if 16 <= sender {
        return mask;
    }
    if is_in(mask, sender) {
        mask ^ (1u16 << sender)
    } else {
        mask
    }
}

// Whether a set has at least f + 1 members.
pub fn is_enough(mask: u16, f: u8) -> bool
    ensures { result ≡ enough mask f }
{
    if mask == 0 {
        return false;
    }
    f as u32 + 1 <= mask.count_ones()
}

// How many members a set has.
pub fn how_many(mask: u16) -> u32
    ensures { result ≡ size mask }
{
    mask.count_ones()
}

// The members of either of two sets.
pub fn join_all(mask: u16, others: u16) -> u16
    ensures { result ≡ together mask others }
{
    mask | others
}

// Whether every member of a set is below n.
pub fn is_within(mask: u16, n: u32) -> bool
    ensures { result ≡ within mask n }
{
    if 16 <= n {
        return true;
    }
    mask >> n == 0
}
