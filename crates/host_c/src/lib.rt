// The exports for programs in C and Rust, each written out, since C's interface is their names: each is the call of its name in host.
#![tactic(auto)]

ghost use Rattle.std.specs.Prelude.{◌≡◌};
ghost use Rattle.space.specs.Space.{spaces};
ghost use Rattle.host_state.specs.Load.{state_of};
ghost use Rattle.host_answer.specs.Numbers.{read_number};
ghost use Rattle.call_read.specs.Reading.{read_of};
ghost use Rattle.host.specs.Calls.{returned, crossed, fresh_left, reset_left, pointed_left, written_left, lined_left, acknowledged_left, stepped_left, ran_left, why_answered};

#[unsafe(no_mangle)]
pub extern "C" fn einflyga_fresh(state: &mut [u16; 72])
    ensures { state.new ≡ fresh_left }
{
    host::einflyga_fresh(state);
}

#[unsafe(no_mangle)]
pub extern "C" fn einflyga_reset(state: &mut [u16; 72])
    ensures { state.new ≡ reset_left state.old }
{
    host::einflyga_reset(state);
}

#[unsafe(no_mangle)]
pub extern "C" fn einflyga_write_pointer(state: &mut [u16; 72], pointer: u16)
    ensures { state.new ≡ pointed_left pointer state.old }
{
    host::einflyga_write_pointer(state, pointer);
}

#[unsafe(no_mangle)]
pub extern "C" fn einflyga_read_pointer(state: &[u16; 72]) -> u16
    ensures { result ≡ (state_of state.now).pointer }
{
    host::einflyga_read_pointer(state)
}

#[unsafe(no_mangle)]
pub extern "C" fn einflyga_write(state: &mut [u16; 72], value: u16) -> u32
    ensures { returned result state.new ≡ written_left value state.old }
{
    host::einflyga_write(state, value)
}

#[unsafe(no_mangle)]
pub extern "C" fn einflyga_read(state: &[u16; 72]) -> u32
    ensures { result ≡ read_number (read_of (state_of state.now)) }
{
    host::einflyga_read(state)
}

#[unsafe(no_mangle)]
pub extern "C" fn einflyga_line(state: &mut [u16; 72], channel: u32, active: bool) -> u32
    ensures { returned result state.new ≡ lined_left channel active state.old }
{
    host::einflyga_line(state, channel, active)
}

#[unsafe(no_mangle)]
pub extern "C" fn einflyga_acknowledge(state: &mut [u16; 72]) -> u32
    ensures { returned result state.new ≡ acknowledged_left state.old }
{
    host::einflyga_acknowledge(state)
}

#[unsafe(no_mangle)]
pub extern "C" fn einflyga_step(
    state: &mut [u16; 72],
    eop: bool,
    memory: &mut [u8],
    io: &mut [u8],
) -> u32
    ensures { crossed result state.new (spaces memory.new io.new) ≡ stepped_left eop state.old (spaces memory.old io.old) }
{
    host::einflyga_step(state, eop, memory, io)
}

#[unsafe(no_mangle)]
pub extern "C" fn einflyga_run(
    state: &mut [u16; 72],
    budget: u32,
    memory: &mut [u8],
    io: &mut [u8],
) -> u64
    ensures { crossed result state.new (spaces memory.new io.new) ≡ ran_left budget state.old (spaces memory.old io.old) }
{
    host::einflyga_run(state, budget, memory, io)
}

#[unsafe(no_mangle)]
pub extern "C" fn einflyga_why(state: &[u16; 72], channel: u32, memory: usize, io: usize) -> u32
    ensures { result ≡ why_answered channel (record { memory = memory; io = io }) state.now }
{
    host::einflyga_why(state, channel, memory, io)
}
