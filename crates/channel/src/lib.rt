// A channel: its registers, its request and its end.
#![tactic(auto)]

ghost use Rattle.std.specs.Prelude.{◌≡◌};
ghost use Rattle.word_mode.specs.Mode.{is_requested};
ghost use Rattle.channel.specs.Candidate.{is_candidate};
ghost use Rattle.channel.specs.Ending.{flags_of, is_two, saved, with_ip, flagged, interrupted, finished, end_of, moved_by, spent, unended};
ghost use Rattle.channel.specs.Reset.{reset_channel};

use channel_request::Line;
use port::Which;
use unit::Moved;
use word_address::{Address, Set};
use word_mode::{Mode, Reasons, RequestMode};
use word_status::Flags;

// Its flags stand beside the status bits that no fetch changes: so a chain's loop moves them in one piece.
#[derive(Clone, Copy)]
pub struct Interrupt {
    pub vector: u8,
    pub save: u16,
    pub cie: bool,
    pub ip: bool,
    pub sip: bool,
}

// The status bits that are kept; the word's other bits are read from elsewhere.
#[derive(Clone, Copy)]
pub struct Status {
    pub mch: bool,
    pub mcl: bool,
    pub why: Reasons,
    pub ca: bool,
    pub nac: bool,
}

#[derive(Clone, Copy)]
pub struct Channel {
    pub current: Set,
    pub base: Set,
    pub pattern: u16,
    pub mask: u16,
    pub mode: Mode,
    pub chain: Address,
    pub interrupt: Interrupt,
    pub status: Status,
    pub line: Line,
    pub pending: bool,
}

// A channel after an end, and whether the end puts a chain under way.
#[derive(Clone, Copy)]
pub struct Ended {
    pub channel: Channel,
    pub chains: bool,
}

fn is_two(which: Which) -> bool
    ensures { result ≡ is_two which }
{
    match which {
        Which::One => false,
        Which::Two => true,
    }
}

impl Channel {
    #[tactic(auto, unfolding(crate::specs::Candidate::is_candidate))]
    pub fn is_candidate(self) -> bool
        ensures { result ≡ is_candidate self }
    {
        let requesting = channel_request::is_requesting(self.mode, self.line);
        self.pending | (requesting & ((!self.status.nac & !self.interrupt.sip) & !self.status.ca))
    }

    #[tactic(auto, unfolding(crate::specs::Reset::reset_channel))]
    pub fn reset(mut self) -> Channel
        ensures { result ≡ reset_channel self }
    {
        self.interrupt.cie = false;
        self.interrupt.ip = false;
        self.interrupt.sip = false;
        let mut status = self.status;
        status.ca = true;
        status.nac = true;
        self.status = status;
        self.line.change = false;
        self.pending = false;
        self
    }

    // The flags of the status and save words; WFB is the controller's to say.
    pub fn flags(self, wfb: bool) -> Flags
        ensures { result ≡ flags_of wfb self }
    {
        Flags {
            cie: self.interrupt.cie,
            ip: self.interrupt.ip,
            ca: self.status.ca,
            nac: self.status.nac,
            wfb,
            sip: self.interrupt.sip,
            masked: self.mode.is_masked(),
            line: self.line.active,
            mch: self.status.mch,
            mcl: self.status.mcl,
            mc: self.status.why.mc,
            eop: self.status.why.eop,
            tc: self.status.why.tc,
        }
    }

    #[tactic(auto, unfolding(crate::specs::Ending::saved))]
    pub fn with_save(mut self, which: Which) -> Channel
        ensures { result ≡ saved which self }
    {
        let save = self.flags(false).save(is_two(which), self.interrupt.vector);
        self.interrupt.save = save;
        self
    }

    // IP is set, and save loaded.
    #[tactic(auto, unfolding(crate::specs::Ending::with_ip))]
    pub fn with_ip(mut self, which: Which) -> Channel
        ensures { result ≡ with_ip which self }
    {
        self.interrupt.ip = true;
        self.with_save(which)
    }

    // An end writes its reasons, and clears the software bit and the stored change.
    #[tactic(auto, unfolding(crate::specs::Ending::flagged))]
    fn flag(mut self, why: Reasons) -> Channel
        ensures { result ≡ flagged why self }
    {
        let mode = self.mode.with_request(false);
        let mut status = self.status;
        status.why = why;
        self.status = status;
        self.mode = mode;
        self.line.change = false;
        self
    }

    #[tactic(auto, using(crate::proofs::CodeLaws::first_interrupt), unfolding(crate::specs::Ending::interrupted))]
    fn interrupt_for(self, which: Which, why: Reasons) -> Channel
        ensures { result ≡ interrupted which why self }
    {
        if self.mode.interrupts().enables(why) {
            if self.interrupt.ip {
                let mut next = self;
                next.interrupt.sip = true;
                next
            } else {
                self.with_ip(which)
            }
        } else {
            self
        }
    }

    // What an end does but for a chain: reload, or NAC.
    #[tactic(auto, unfolding(crate::specs::Ending::finished))]
    pub fn finish(mut self, why: Reasons) -> Channel
        ensures { result ≡ finished why self }
    {
        let reloads = self.mode.reloads().enables(why);
        let chains = self.mode.chains().enables(why);
        if reloads {
            let base = self.base;
            self.current = base;
            return self;
        }
        if chains {
            return self;
        }
        self.status.nac = true;
        self
    }

    #[tactic(auto, using(crate::proofs::CodeLaws::end_finished), unfolding(crate::specs::Ending::end_of))]
    pub fn end(self, which: Which, why: Reasons) -> Ended
        ensures { result ≡ end_of which why self }
    {
        let next = self.flag(why).interrupt_for(which, why);
        if next.interrupt.sip {
            return Ended {
                channel: next,
                chains: false,
            };
        }
        let chains = next.mode.chains().enables(why);
        Ended {
            channel: next.finish(why),
            chains,
        }
    }

    // What the unit made of the current registers and of MCH and MCL.
    #[tactic(auto, unfolding(crate::specs::Ending::moved_by))]
    pub fn with_moved(mut self, m: Moved) -> Channel
        ensures { result ≡ moved_by m self }
    {
        let set = m.set;
        self.current = set;
        self.status.mch = m.compared.mch;
        self.status.mcl = m.compared.mcl;
        self
    }

    // Single spends its software bit or else its stored change.
    fn spend(mut self) -> Channel
        ensures { result ≡ spent (is_requested self.mode) self }
    {
        if self.mode.is_requested() {
            let mode = self.mode.with_request(false);
            self.mode = mode;
        } else {
            self.line.change = false;
        }
        self
    }

    #[tactic(auto, unfolding(crate::specs::Ending::unended))]
    fn unend(self) -> Channel
        ensures { result ≡ unended self }
    {
        let mode = self.mode.request_mode();
        match mode {
            RequestMode::Single => self.spend(),
            RequestMode::DemandHold => self,
            RequestMode::DemandRelease => self,
            RequestMode::DemandInterleave => self,
        }
    }

    // The channel after an unended unit.
    pub fn go_on(self, m: Moved) -> Channel
        ensures { result ≡ unended (moved_by m self) }
    {
        self.with_moved(m).unend()
    }

    // The channel after a unit that ends its operation.
    pub fn end_after(self, which: Which, why: Reasons, m: Moved) -> Ended
        ensures { result ≡ end_of which why (moved_by m self) }
    {
        self.with_moved(m).end(which, why)
    }
}
