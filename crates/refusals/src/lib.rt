// How every refusal of the model is decided: by the first test that fails.
#![tactic(auto)]

ghost use Rattle.std.specs.Prelude.{◌≡◌, [], ◌∷◌};
ghost use Rattle.refusals.specs.Numbers.{number};
ghost use Rattle.refusals.specs.Tests.{refusal as refusal_of};

// Why a step is turned away, or a reading, or a log: document 01's table, in its order.
#[derive(Clone, Copy)]
pub enum Refusal {
    // A Start out of range or with too few records lent, or a bad interval.
    BadStart,
    // A node or sender that the site does not have, a status above 1, or a `back` above 7.
    BadNumber,
    // The acting node is compromised.
    Compromised,
    // The node's phase does not take this step.
    WrongPhase,
    // The step's clock is neither the site's nor the next.
    NotNow,
    // The step's clock is below the last one accepted.
    ClockBack,
    // The stamp is not fresh.
    NotFresh,
    // The share was not made by its correct sender, or the command's verdict is no.
    NotVouchedFor,
    // The report is not new.
    NotNew,
    // The stamp is not above the breaker's.
    NotAbove,
    // The timeout is not armed.
    NotArmed,
    // Fewer changes are remembered than `back` asks for.
    NotRemembered,
    // As many correct nodes are down as may be.
    TooManyDown,
    // The site's clock, or the stamp of a reading, is at its end.
    LastClock,
    // No site is started, or what was handed in is out of range.
    Unsound,
    // A log is malformed, or a record has no room.
    Malformed,
}

impl Refusal {
    // The number that document 01 gives it.
    pub fn number(self) -> u8
        ensures { result ≡ number self }
    {
        match self {
            Refusal::BadStart => 1,
            Refusal::BadNumber => 2,
            Refusal::Compromised => 3,
            Refusal::WrongPhase => 4,
            Refusal::NotNow => 5,
            Refusal::ClockBack => 6,
            Refusal::NotFresh => 7,
            Refusal::NotVouchedFor => 8,
            Refusal::NotNew => 9,
            Refusal::NotAbove => 11,
            Refusal::NotArmed => 12,
            Refusal::NotRemembered => 13,
            Refusal::TooManyDown => 14,
            Refusal::LastClock => 15,
            Refusal::Unsound => 16,
            Refusal::Malformed => 17,
        }
    }
}

// One test and the refusal that is given where it fails.
pub fn test<R: Copy>(refusal: R, passed: bool) -> Result<(), R>
    ensures { result ≡ refusal_of ((refusal, passed) ∷ []) }
{
    if passed { Ok(()) } else { Err(refusal) }
}
