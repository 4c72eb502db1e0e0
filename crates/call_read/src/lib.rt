// What is read at the pointer.
#![tactic(auto)]

ghost use Rattle.std.specs.Prelude.{◌≡◌};
ghost use Rattle.call_read.specs.Reading.{keeps_bus, waits_for_bus, register_read, value_of, read_of};

use channel::Channel;
use port::{Register, Which};
use port_read::ReadPort;
use refusal::Refusal;
use step::Controller;

fn keeps_bus(w: Which, bus: Option<Which>) -> bool
    ensures { result ≡ keeps_bus w bus }
{
    bus == Some(w)
}

// WFB: a candidate that does not keep the bus.
#[tactic(auto, unfolding(crate::specs::Reading::waits_for_bus))]
pub fn waits_for_bus(w: Which, u: Controller) -> bool
    ensures { result ≡ waits_for_bus w u }
{
    let control = u.control;
    let bus = control.bus;
    u.channel(w).is_candidate() & !keeps_bus(w, bus)
}

#[tactic(auto, unfolding(crate::specs::Reading::register_read))]
fn register_read(r: Register, c: Channel) -> u16
    ensures { result ≡ register_read r c }
{
    match r {
        Register::CurrentAUpper => c.current.a.upper,
        Register::CurrentALower => c.current.a.lower,
        Register::CurrentBUpper => c.current.b.upper,
        Register::CurrentBLower => c.current.b.lower,
        Register::BaseAUpper => c.base.a.upper,
        Register::BaseALower => c.base.a.lower,
        Register::BaseBUpper => c.base.b.upper,
        Register::BaseBLower => c.base.b.lower,
        Register::CurrentCount => c.current.count,
        Register::BaseCount => c.base.count,
        Register::Pattern => c.pattern,
        Register::Mask => c.mask,
        Register::Vector => c.interrupt.vector as u16,
        Register::ModeLow => c.mode.low,
        Register::ChainUpper => c.chain.upper,
        Register::ChainLower => c.chain.lower,
    }
}

fn value_at(port: ReadPort, u: Controller) -> u16
    ensures { result ≡ value_of port u }
{
    match port {
        ReadPort::MasterMode => u.master,
        ReadPort::Status(w) => u.channel(w).flags(waits_for_bus(w, u)).status(),
        ReadPort::Save(w) => u.channel(w).interrupt.save,
        ReadPort::ModeHigh(w) => u.channel(w).mode.high,
        ReadPort::Of(w, r) => register_read(r, u.channel(w)),
    }
}

#[tactic(auto, unfolding(crate::specs::Reading::read_of))]
pub fn read(u: Controller) -> Result<u16, Refusal>
    ensures { result ≡ read_of u }
{
    let port = port_read::read_port(u.pointer).ok_or(Refusal::NoRegister)?;
    Ok(value_at(port, u))
}
