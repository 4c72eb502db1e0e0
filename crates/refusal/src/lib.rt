// The refusals of document 01's list, and the number of each.
#![tactic(auto)]

ghost use Rattle.std.specs.Prelude.{◌≡◌};
ghost use Rattle.refusal.specs.Refusals.{number};

// Why a call is refused, in the list's order.
#[derive(Clone, Copy, Debug, PartialEq, Eq)]
pub enum Refusal {
    NoRegister,
    Busy,
    NoCommand,
    OtherChannelsIp,
    CannotChain,
    OddChain,
    NotCarried,
    OddWord,
    NothingToAcknowledge,
    NoChannel,
    LongRun,
}

impl From<Refusal> for u8 {
    ghost from_gives = { λ r n. n ≡ number r };

    fn from(r: Refusal) -> u8 {
        match r {
            Refusal::NoRegister => 1,
            Refusal::Busy => 2,
            Refusal::NoCommand => 3,
            Refusal::OtherChannelsIp => 4,
            Refusal::CannotChain => 5,
            Refusal::OddChain => 6,
            Refusal::NotCarried => 7,
            Refusal::OddWord => 8,
            Refusal::NothingToAcknowledge => 9,
            Refusal::NoChannel => 10,
            Refusal::LongRun => 11,
        }
    }
}
