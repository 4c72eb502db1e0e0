// The points of document 01 that are run, and the data sheet's initialization program and reload table (Figures 23 and 24), each
// compared with what it should be; then what comparisons tell (document 02, E2), as the status has it, and how often the upper address byte
// changes (E5).
#![tactic(auto)]

mod changes;
mod comparisons;
mod run;

use channel::Channel;
use port::Which;
use refusal::Refusal;
use run::Spaces;
use std::io;
use step::{Answer, Controller, Ran};
use word_address::Address;

// The reload table of Figure 24, from address 1020h on, as its reload word 03FFh takes it.
const TABLE: [u16; 18] = [
    0x03FF, 0x0000, 0x1F00, 0x0000, 0x1060, 0x0010, 0x0000, 0x1F00, 0x0000, 0x1080, 0x0012, 0x0000,
    0xFFFF, 0x0001, 0x0000, 0x8020, 0x0000, 0x1020,
];

// A chain table at 100h for a search of the two words behind it: current A 000110h, count 2, pattern 1234h, software request, stop on match.
const SEARCH: [u16; 10] = [
    0x028A, 0x0040, 0x0110, 0x0002, 0x1234, 0x0000, 0x0012, 0x002E, 0x1111, 0x1234,
];

// The 16 words of I/O that the channel of Figure 24 moves.
const FRAME: [u16; 16] = [
    0x00CA, 0x01CB, 0x02CC, 0x03CD, 0x04CE, 0x05CF, 0x06D0, 0x07D1, 0x08D2, 0x09D3, 0x0AD4, 0x0BD5,
    0x0CD6, 0x0DD7, 0x0ED8, 0x0FD9,
];

// As much of each space as the tables and what they move take.
type TableSpaces = Spaces<8192, 8192>;

fn say(rt: &impl Print, what: &str, right: bool) -> io::Result<()> {
    let verdict = if right { "as it should be" } else { "WRONG" };
    println!(rt; "{}: {}", what, verdict)
}

// ---- refusals

fn is_write_refused(u: Controller, pointer: u16, w: u16, refusal: Refusal) -> bool {
    run::write_at(u, pointer, w).answer == Err(refusal)
}

// Pointer 00FFh reads 007Eh, and its register is refused by 1 in both directions.
fn is_pointer_right() -> bool {
    let u = call_pointer::write_pointer(call_reset::fresh(), 0x00FF);
    (call_pointer::read_pointer(u) == 0x007E)
        & (call_read::read(u) == Err(Refusal::NoRegister))
        & is_write_refused(u, 0x00FF, 0, Refusal::NoRegister)
}

fn say_refusals(rt: &impl Print) -> io::Result<()> {
    let u = call_reset::fresh();
    say(
        rt,
        "C0h at 2E is 3",
        is_write_refused(u, 0x2E, 0x00C0, Refusal::NoCommand),
    )?;
    say(
        rt,
        "26h at 2C is 4",
        is_write_refused(u, 0x2C, 0x0026, Refusal::OtherChannelsIp),
    )?;
    say(
        rt,
        "pointer 00FFh reads 007Eh and its register is 1",
        is_pointer_right(),
    )
}

// ---- what runs

// A unit of channel 1 with just these end reasons.
fn is_unit(a: Answer, tc: bool, mc: bool) -> bool {
    matches!(a, Answer::Unit(Which::One, d) if (d.why.tc == tc) & (d.why.mc == mc) & !d.why.eop)
}

// 8 words of a chain, and a unit that goes on.
fn does_first_go_on(r: Ran) -> bool {
    (r.steps == 9) & is_unit(r.answer, false, false)
}

// Count 2 with the match second ends with TC and MC.
fn is_match_right(spaces: &mut TableSpaces) -> bool {
    let r = spaces.run(run::started(1, 0x0100), 9);
    let s = spaces.step(r.state);
    does_first_go_on(r) & is_unit(s.answer, true, true)
}

fn is_address(a: Address, upper: u16, lower: u16) -> bool {
    (a.upper == upper) & (a.lower == lower)
}

// What the table of Figure 24 loads.
fn is_loaded(c: Channel) -> bool {
    is_address(c.current.a, 0x0000, 0x1F00)
        & is_address(c.current.b, 0x0000, 0x1060)
        & (c.current.count == 0x0010)
        & is_address(c.base.a, 0x0000, 0x1F00)
        & is_address(c.base.b, 0x0000, 0x1080)
        & (c.base.count == 0x0012)
        & (c.pattern == 0x0000)
        & (c.mask == 0xFFFF)
        & (c.interrupt.vector == 0x01)
        & (c.mode.high == 0x0000)
        & (c.mode.low == 0x8020)
        & is_address(c.chain, 0x0000, 0x1020)
}

// The 18 words of the table are fetched, the note given back, and the channel waits for its line.
fn is_chained(r: Ran) -> bool {
    (r.steps == 19) & matches!(r.answer, Answer::Idle) & is_loaded(r.state.one)
}

fn is_chain_right(spaces: &mut TableSpaces) -> bool {
    is_chained(spaces.run(run::started(0x0007, 0x1020), 100))
}

fn is_ended(r: Ran) -> bool {
    (r.steps == 16) & is_unit(r.answer, true, false) & r.state.one.status.nac
}

// With its line active the channel moves 16 words of I/O in demand hold and ends by TC.
fn is_block_right(spaces: &mut TableSpaces) -> bool {
    let waiting = spaces.run(run::started(0x0007, 0x1020), 19);
    let requested = call_line::line(1, true, waiting.state);
    let moved = spaces.run(requested.state, 16);
    is_ended(moved) & spaces.has(false, 0x1060, &FRAME)
}

fn say_what_runs(rt: &impl Print) -> io::Result<()> {
    // The tables and the words that they move lie apart in both spaces.
    let mut spaces = Spaces::zeros();
    spaces.store(true, 0x0100, &SEARCH);
    spaces.store(true, 0x1020, &TABLE);
    spaces.store(false, 0x1F00, &FRAME);
    say(
        rt,
        "count 2 with the match second ends with TC and MC",
        is_match_right(&mut spaces),
    )?;
    say(
        rt,
        "Figures 23 and 24: the chain loads what the table says",
        is_chain_right(&mut spaces),
    )?;
    say(
        rt,
        "Figures 23 and 24: the block arrives and ends by TC",
        is_block_right(&mut spaces),
    )
}

fn main(rt: HostRuntime) -> io::Result<()> {
    say_refusals(&rt)?;
    say_what_runs(&rt)?;
    comparisons::say(&rt)?;
    changes::say(&rt)
}
