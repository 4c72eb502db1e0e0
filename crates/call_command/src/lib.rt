// The commands of Figure 18, and what a refused register write leaves.
#![tactic(auto)]

ghost use Rattle.std.specs.Prelude.{◌≡◌};
ghost use Rattle.channel.specs.Set.{◌⟨mode≔◌⟩};
ghost use Rattle.step.specs.Controller.{at, with};
ghost use Rattle.call_command.specs.Commands.{refuses, takes, is_busy, carried_out, obeyed, is_reset, commanded};

use port::Which;
use refusal::Refusal;
use step::{Controller, Done};
use word_command::Command;
use word_mode::Mode;

#[tactic(auto, unfolding(crate::specs::Commands::is_busy))]
pub fn is_busy(u: Controller) -> bool
    ensures { result ≡ is_busy u }
{
    u.control.bus.is_some() | u.control.chain.is_some()
}

pub fn refuse(r: Refusal, u: Controller) -> Done<Result<(), Refusal>>
    ensures { result ≡ refuses r u }
{
    Done {
        state: u,
        answer: Err(r),
    }
}

pub fn take(u: Controller) -> Done<Result<(), Refusal>>
    ensures { result ≡ takes u }
{
    Done {
        state: u,
        answer: Ok(()),
    }
}

fn set_interrupts(
    k: Which,
    set: bool,
    e: bool,
    p: bool,
    w: Which,
    u: Controller,
) -> Done<Result<(), Refusal>>
    ensures { result ≡ carried_out (Command.Interrupts k set e p) w u }
{
    if p & (w != k) {
        return refuse(Refusal::OtherChannelsIp, u);
    }
    take(u.with_channel(
        k,
        channel_command::with_ip(p, set, k, channel_command::with_cie(e, set, u.channel(k))),
    ))
}

fn start(k: Which, w: Which, u: Controller) -> Done<Result<(), Refusal>>
    ensures { result ≡ carried_out (Command.StartChain k) w u }
{
    let c = u.channel(k);
    if channel_command::can_not_chain(c) {
        return refuse(Refusal::CannotChain, u);
    }
    take(u.with_channel(k, channel_command::start_chain(c)))
}

// Software request, flip and hardware mask: the mode with one bit anew.
fn with_mode(k: Which, m: Mode, u: Controller) -> Done<Result<(), Refusal>>
    ensures { result ≡ takes (with k (at k u ⟨mode≔ m ⟩) u) }
{
    let mut c = u.channel(k);
    c.mode = m;
    take(u.with_channel(k, c))
}

// Not in line: there a write of master mode, which is in the same function, took 625 instructions for 471, and a refused write 500 for 356.
#[inline(never)]
fn carry_out(x: Command, w: Which, u: Controller) -> Done<Result<(), Refusal>>
    ensures { result ≡ carried_out x w u }
{
    match x {
        Command::Reset => take(call_reset::reset(u)),
        Command::Interrupts {
            channel,
            set,
            cie,
            ip,
        } => set_interrupts(channel, set, cie, ip, w, u),
        Command::SoftwareRequest(k, set) => with_mode(k, u.channel(k).mode.with_request(set), u),
        Command::Flip(k, set) => with_mode(k, u.channel(k).mode.with_flip(set), u),
        Command::HardwareMask(k, set) => with_mode(k, u.channel(k).mode.with_mask(set), u),
        Command::StartChain(k) => start(k, w, u),
    }
}

fn is_reset(x: Option<Command>) -> bool
    ensures { result ≡ is_reset x }
{
    matches!(x, Some(Command::Reset))
}

fn carry_out_if_any(x: Option<Command>, w: Which, u: Controller) -> Done<Result<(), Refusal>>
    ensures { result ≡ obeyed x w u }
{
    match x {
        Some(x) => carry_out(x, w, u),
        None => refuse(Refusal::NoCommand, u),
    }
}

#[tactic(auto, unfolding(crate::specs::Commands::commanded))]
pub fn obey(x: Option<Command>, w: Which, u: Controller) -> Done<Result<(), Refusal>>
    ensures { result ≡ commanded x w u }
{
    if !is_reset(x) & is_busy(u) {
        return refuse(Refusal::Busy, u);
    }
    carry_out_if_any(x, w, u)
}
