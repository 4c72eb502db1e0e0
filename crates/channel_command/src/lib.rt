// What a command of Figure 18 does to its channel: CIE and IP, Start Chain.
#![tactic(auto)]

ghost use Rattle.std.specs.Prelude.{◌≡◌};
ghost use Rattle.channel_command.specs.Effects.{cie_by, ip_by, chain_started, cannot_chain};

use channel::Channel;
use port::Which;

pub fn with_cie(named: bool, set: bool, mut c: Channel) -> Channel
    ensures { result ≡ cie_by named set c }
{
    if named {
        c.interrupt.cie = set;
    }
    c
}

pub fn with_ip(named: bool, set: bool, w: Which, mut c: Channel) -> Channel
    ensures { result ≡ ip_by named set w c }
{
    if named {
        if set {
            return c.with_ip(w);
        }
        c.interrupt.ip = false;
        return c;
    }
    c
}

pub fn start_chain(mut c: Channel) -> Channel
    ensures { result ≡ chain_started c }
{
    c.status.nac = false;
    c.pending = true;
    c
}

pub fn can_not_chain(c: Channel) -> bool
    ensures { result ≡ cannot_chain c }
{
    c.status.ca | c.interrupt.sip
}
