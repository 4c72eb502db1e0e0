// The mode, its fields, and the end reasons that its triples enable.
#![tactic(auto)]

ghost use Rattle.std.specs.Prelude.{◌≡◌, ◌<◌};
ghost use Rattle.word_mode.specs.Reasons.{some, enabled_for, triple};
ghost use Rattle.word_mode.specs.Mode.{operation_of, request_mode_of, is_flipped, interrupt_of, reload_of, chain_of, match_control, is_masked, is_requested, with_flip, with_mask, with_request, kept_high};

use word_operation::Operation;

// ---- end reasons

// Why an operation ends; also a triple of the mode, by which each reason is enabled or not.
#[derive(Clone, Copy)]
pub struct Reasons {
    pub tc: bool,
    pub mc: bool,
    pub eop: bool,
}

impl Reasons {
    #[tactic(auto, unfolding(crate::specs::Reasons::some))]
    pub fn any(self) -> bool
        ensures { result ≡ some self }
    {
        self.tc | self.mc | self.eop
    }

    // A triple is enabled for one of the reasons.
    #[tactic(auto, unfolding(crate::specs::Reasons::enabled_for))]
    pub fn enables(self, why: Reasons) -> bool
        ensures { result ≡ enabled_for self why }
    {
        (self.tc & why.tc) | (self.mc & why.mc) | (self.eop & why.eop)
    }
}

// ---- the mode

// The triple whose lowest bit, TC, is bit k.
fn triple_at(low: u16, k: u32) -> Reasons
    requires { k < 14 }
    ensures { result ≡ triple k low }
{
    Reasons {
        tc: facts::bit(low, k),
        mc: facts::bit(low, k + 1),
        eop: facts::bit(low, k + 2),
    }
}

#[derive(Clone, Copy, Debug, PartialEq, Eq)]
pub enum RequestMode {
    Single,
    DemandHold,
    DemandRelease,
    DemandInterleave,
}

// Bits 20-16 are bits 4-0 of the high word.
#[derive(Clone, Copy)]
pub struct Mode {
    pub high: u16,
    pub low: u16,
}

impl Mode {
    #[tactic(auto, using(facts::proofs::Masks::and_15), unfolding(crate::specs::Mode::operation_of))]
    pub fn operation(self) -> Operation
        ensures { result ≡ operation_of self }
    {
        word_operation::operation_of(self.low & 15)
    }

    pub fn is_flipped(self) -> bool
        ensures { result ≡ is_flipped self }
    {
        facts::bit(self.low, 4)
    }

    #[tactic(auto, using(facts::proofs::Masks::and_3, facts::proofs::Look::look_none), unfolding(facts::specs::Look::look, crate::specs::Mode::request_mode_of))]
    pub fn request_mode(self) -> RequestMode
        ensures { result ≡ request_mode_of self }
    {
        let code = (self.low >> 5) & 3;
        match code {
            0 => RequestMode::Single,
            1 => RequestMode::DemandHold,
            2 => RequestMode::DemandRelease,
            _ => RequestMode::DemandInterleave,
        }
    }

    pub fn interrupts(self) -> Reasons
        ensures { result ≡ interrupt_of self }
    {
        triple_at(self.low, 7)
    }

    pub fn reloads(self) -> Reasons
        ensures { result ≡ reload_of self }
    {
        triple_at(self.low, 10)
    }

    pub fn chains(self) -> Reasons
        ensures { result ≡ chain_of self }
    {
        triple_at(self.low, 13)
    }

    pub fn match_control(self) -> u16
        ensures { result ≡ match_control self }
    {
        self.high & 3
    }

    pub fn is_masked(self) -> bool
        ensures { result ≡ is_masked self }
    {
        facts::bit(self.high, 3)
    }

    // The software request.
    pub fn is_requested(self) -> bool
        ensures { result ≡ is_requested self }
    {
        facts::bit(self.high, 4)
    }

    pub fn with_flip(mut self, set: bool) -> Mode
        ensures { result ≡ with_flip set self }
    {
        self.low = facts::with_bit(self.low, 4, set);
        self
    }

    pub fn with_mask(mut self, set: bool) -> Mode
        ensures { result ≡ with_mask set self }
    {
        self.high = facts::with_bit(self.high, 3, set);
        self
    }

    pub fn with_request(mut self, set: bool) -> Mode
        ensures { result ≡ with_request set self }
    {
        self.high = facts::with_bit(self.high, 4, set);
        self
    }
}

// Mode high has five bits.
pub fn kept_high(w: u16) -> u16
    ensures { result ≡ kept_high w }
{
    w & 31
}
