// What is written at the pointer.
#![tactic(auto)]

ghost use Rattle.std.specs.Prelude.{◌≡◌, Some};
ghost use Rattle.port_write.specs.declared.WritePort.TheVariants.{MasterMode, Of};
ghost use Rattle.call_write.specs.Writing.{chain_written, register_written, write_by, write_of};

use channel::Channel;
use port::{Register, Which};
use port_write::WritePort;
use refusal::Refusal;
use step::{Controller, Done};

#[tactic(auto, unfolding(crate::specs::Writing::chain_written, channel_loading::specs::Loading::loaded))]
fn write_chain(second: bool, w: u16, c: &mut Channel)
    ensures { c.new ≡ chain_written second w c.old }
{
    channel_loading::load_chain(second, w, c);
    c.status.ca = false;
}

// Not in line: there a command write, which is in the same function, took 754 instructions for 694, and a register write 540 for 500.
#[inline(never)]
#[tactic(auto, unfolding(channel_loading::specs::Loading::loaded, crate::specs::Writing::register_written))]
fn write_to(r: Register, w: u16, c: &mut Channel)
    ensures { c.new ≡ register_written r w c.old }
{
    match r {
        Register::CurrentAUpper => channel_loading::load_address(false, w, &mut c.current.a),
        Register::CurrentALower => channel_loading::load_address(true, w, &mut c.current.a),
        Register::CurrentBUpper => channel_loading::load_address(false, w, &mut c.current.b),
        Register::CurrentBLower => channel_loading::load_address(true, w, &mut c.current.b),
        Register::BaseAUpper => channel_loading::load_address(false, w, &mut c.base.a),
        Register::BaseALower => channel_loading::load_address(true, w, &mut c.base.a),
        Register::BaseBUpper => channel_loading::load_address(false, w, &mut c.base.b),
        Register::BaseBLower => channel_loading::load_address(true, w, &mut c.base.b),
        Register::CurrentCount => c.current.count = w,
        Register::BaseCount => c.base.count = w,
        Register::Pattern => channel_loading::load_compare(false, w, c),
        Register::Mask => channel_loading::load_compare(true, w, c),
        Register::Vector => c.interrupt.vector = (w % 256) as u8,
        Register::ModeLow => channel_loading::load_mode(true, w, c),
        Register::ChainUpper => write_chain(false, w, c),
        Register::ChainLower => write_chain(true, w, c),
    }
}

#[tactic(auto, unfolding(step::specs::Controller::at, step::specs::Controller::with))]
fn write_register(k: Which, r: Register, w: u16, mut u: Controller) -> Done<Result<(), Refusal>>
    ensures { result ≡ write_by (Some (Of k r)) w u }
{
    if call_command::is_busy(u) {
        return call_command::refuse(Refusal::Busy, u);
    }
    match k {
        Which::One => write_to(r, w, &mut u.one),
        Which::Two => write_to(r, w, &mut u.two),
    }
    call_command::take(u)
}

fn write_master(w: u16, mut u: Controller) -> Done<Result<(), Refusal>>
    ensures { result ≡ write_by (Some MasterMode) w u }
{
    if call_command::is_busy(u) {
        return call_command::refuse(Refusal::Busy, u);
    }
    u.master = w % 16;
    call_command::take(u)
}

#[tactic(auto, unfolding(crate::specs::Writing::write_of))]
pub fn write(w: u16, u: Controller) -> Done<Result<(), Refusal>>
    ensures { result ≡ write_of w u }
{
    let port = port_write::write_port(u.pointer);
    match port {
        Some(WritePort::MasterMode) => write_master(w, u),
        Some(WritePort::Command(k)) => call_command::obey(word_command::decode(w), k, u),
        Some(WritePort::Of(k, r)) => write_register(k, r, w, u),
        None => call_command::refuse(Refusal::NoRegister, u),
    }
}
