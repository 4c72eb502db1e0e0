// The host's calls, over the state as 72 words that the caller lends. host_c exports them.
#![tactic(auto)]

ghost use Rattle.std.specs.Prelude.{◌≡◌};
ghost use Rattle.space.specs.Space.{spaces};
ghost use Rattle.host_state.specs.Load.{state_of};
ghost use Rattle.host_answer.specs.Numbers.{number_of, read_number};
ghost use Rattle.call_read.specs.Reading.{read_of};
ghost use Rattle.host.specs.Calls.{returned, crossed, is_refusal, words_after, leaves, fresh_left, reset_left, pointed_left, written_left, lined_left, acknowledged_left, stepped_left, ran_left, why_answered};

use host_answer::Told;
use refusal::Refusal;
use space_board::Board;
use step::{Controller, Done};

fn is_refusal(number: u64) -> bool
    ensures { result ≡ is_refusal number }
{
    (0 < number) & (number < 256)
}

// A refused call stores nothing, so that words which no state has stay as they were.
#[tactic(auto, unfolding(crate::specs::Calls::words_after))]
fn store_unless_refused(state: &mut [u16; 72], number: u64, next: Controller)
    ensures { state.new ≡ words_after number next state.old }
{
    if is_refusal(number) {
        return;
    }
    *state = host_state::store(next);
}

// What a call that may be refused leaves, and its answer as a number.
fn answered<A: Told>(state: &mut [u16; 72], done: Done<Result<A, Refusal>>) -> u32
    ensures { returned result state.new ≡ leaves (number_of A.told done.answer) done.state state.old }
{
    let next = done.state;
    let number = host_answer::number(done.answer);
    store_unless_refused(state, number as u64, next);
    number
}

#[tactic(auto, unfolding(crate::specs::Calls::fresh_left))]
pub fn einflyga_fresh(state: &mut [u16; 72])
    ensures { state.new ≡ fresh_left }
{
    *state = host_state::store(call_reset::fresh());
}

#[tactic(auto, unfolding(crate::specs::Calls::reset_left))]
pub fn einflyga_reset(state: &mut [u16; 72])
    ensures { state.new ≡ reset_left state.old }
{
    let entry = *state;
    let u = host_state::load(entry);
    *state = host_state::store(call_reset::reset(u));
}

#[tactic(auto, unfolding(crate::specs::Calls::pointed_left))]
pub fn einflyga_write_pointer(state: &mut [u16; 72], pointer: u16)
    ensures { state.new ≡ pointed_left pointer state.old }
{
    let entry = *state;
    let u = host_state::load(entry);
    *state = host_state::store(call_pointer::write_pointer(u, pointer));
}

pub fn einflyga_read_pointer(state: &[u16; 72]) -> u16
    ensures { result ≡ (state_of state.now).pointer }
{
    let entry = *state;
    call_pointer::read_pointer(host_state::load(entry))
}

#[tactic(auto, unfolding(crate::specs::Calls::written_left))]
pub fn einflyga_write(state: &mut [u16; 72], value: u16) -> u32
    ensures { returned result state.new ≡ written_left value state.old }
{
    let entry = *state;
    let u = host_state::load(entry);
    answered(state, call_write::write(value, u))
}

pub fn einflyga_read(state: &[u16; 72]) -> u32
    ensures { result ≡ read_number (read_of (state_of state.now)) }
{
    let entry = *state;
    host_answer::read_number(call_read::read(host_state::load(entry)))
}

#[tactic(auto, unfolding(crate::specs::Calls::lined_left))]
pub fn einflyga_line(state: &mut [u16; 72], channel: u32, active: bool) -> u32
    ensures { returned result state.new ≡ lined_left channel active state.old }
{
    let entry = *state;
    let u = host_state::load(entry);
    answered(state, call_line::line(channel, active, u))
}

#[tactic(auto, unfolding(crate::specs::Calls::acknowledged_left))]
pub fn einflyga_acknowledge(state: &mut [u16; 72]) -> u32
    ensures { returned result state.new ≡ acknowledged_left state.old }
{
    let entry = *state;
    let u = host_state::load(entry);
    answered(state, call_acknowledge::acknowledge(u))
}

#[tactic(auto, using(call_run::proofs::Laws::by_one), unfolding(crate::specs::Calls::stepped_left))]
pub fn einflyga_step(state: &mut [u16; 72], eop: bool, memory: &mut [u8], io: &mut [u8]) -> u32
    ensures { crossed result state.new (spaces memory.new io.new) ≡ stepped_left eop state.old (spaces memory.old io.old) }
{
    let entry = *state;
    let u = host_state::load(entry);
    let stepped = call_run::advance(u, 1, eop, memory, io);
    let next = stepped.state;
    let answer = stepped.answer;
    let number = host_answer::step_number(answer);
    store_unless_refused(state, number as u64, next);
    number
}

#[tactic(auto, unfolding(crate::specs::Calls::ran_left))]
pub fn einflyga_run(state: &mut [u16; 72], budget: u32, memory: &mut [u8], io: &mut [u8]) -> u64
    ensures { crossed result state.new (spaces memory.new io.new) ≡ ran_left budget state.old (spaces memory.old io.old) }
{
    let entry = *state;
    let u = host_state::load(entry);
    let ran = call_run::run(u, budget, memory, io);
    let next = ran.state;
    let answer = ran.answer;
    let number = host_answer::run_number(ran.steps, answer);
    store_unless_refused(state, number, next);
    number
}

// A look: of the spaces it asks for the lengths alone.
#[tactic(auto, unfolding(crate::specs::Calls::why_answered))]
pub fn einflyga_why(state: &[u16; 72], channel: u32, memory: usize, io: usize) -> u32
    ensures { result ≡ why_answered channel (record { memory = memory; io = io }) state.now }
{
    let entry = *state;
    let u = host_state::load(entry);
    host_answer::number(standstill::why(channel, Board { memory, io }, u))
}
