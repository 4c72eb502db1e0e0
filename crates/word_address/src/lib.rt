// An address register, the 24-bit address that it holds and how it steps; the registers of an operation.
#![tactic(auto)]

ghost use Rattle.std.specs.Prelude.{◌≡◌};
ghost use Rattle.word_address.specs.Address.{number, with_number, stepped_on, fetched_on, step_to, is_odd, source_of, destination_of, order_of};

use space::Width;

// The step field of an address that steps up.
const UP: u16 = 0;

// An address register, as the two words that are read.
#[derive(Clone, Copy)]
pub struct Address {
    pub upper: u16,
    pub lower: u16,
}

// What a step hands back: the address that it leads to, and whether bits 23-16 changed.
#[derive(Clone, Copy)]
pub struct AddressStep {
    pub next: Address,
    pub upper: bool,
}

impl Address {
    // The 24-bit address: eight bits of the upper word above sixteen of the lower.
    pub fn number(self) -> u32
        ensures { result ≡ number self }
    {
        ((self.upper >> 8) as u32) << 16 | (self.lower as u32)
    }

    // The register with another 24-bit address in place of its own.
    pub fn with_number(self, a: u32) -> Address
        ensures { result ≡ with_number self a }
    {
        Address {
            upper: (((a >> 16) & 0xFF) as u16) << 8 | self.upper & 0xFF,
            lower: (a & 0xFFFF) as u16,
        }
    }

    // Bits 23-16 of an address are bits 15-8 of its upper word.
    fn step_to(self, next: Address) -> AddressStep
        ensures { result ≡ step_to self next }
    {
        AddressStep {
            next,
            upper: self.upper >> 8 != next.upper >> 8,
        }
    }

    // The step after an access of a width at the register's address n, by its step field.
    #[tactic(auto, unfolding(word_tag::specs::Tag::direction_of, crate::specs::Address::stepped_on))]
    pub fn stepped_from(self, n: u32, w: Width) -> AddressStep
        requires { n ≡ number self }
        ensures { result ≡ step_to self (stepped_on w self) }
    {
        let by = stepping::step_size(word_tag::is_memory(self.upper), w);
        self.step_to(self.with_number(stepping::stepped(n, word_tag::step_of(self.upper), by)))
    }

    // The step of a chain address after a fetch: each adds 2.
    #[tactic(auto, unfolding(crate::specs::Address::fetched_on))]
    pub fn fetched(self) -> AddressStep
        ensures { result ≡ step_to self (fetched_on self) }
    {
        self.step_to(self.with_number(stepping::stepped(self.number(), UP, 2)))
    }

    pub fn is_odd(self) -> bool
        ensures { result ≡ is_odd self }
    {
        facts::bit(self.lower, 0)
    }
}

// The registers that an operation works on, current or base.
#[derive(Clone, Copy)]
pub struct Set {
    pub a: Address,
    pub b: Address,
    pub count: u16,
}

impl Set {
    // Flip 0: source A, destination B; flip 1: the reverse.
    pub fn source(self, flip: bool) -> Address
        ensures { result ≡ source_of flip self }
    {
        if flip { self.b } else { self.a }
    }

    pub fn destination(self, flip: bool) -> Address
        ensures { result ≡ destination_of flip self }
    {
        if flip { self.a } else { self.b }
    }

    // The funnel's order is B's: where its bit 3 is 0 the first byte is the high half.
    pub fn is_high_first(self) -> bool
        ensures { result ≡ order_of self }
    {
        !facts::bit(self.b.upper, 3)
    }
}
