// The controller's state as 72 words that a host keeps, one field a word, and the state of such words, whatever they hold.
#![tactic(auto)]

ghost use Rattle.std.specs.Prelude.{◌≤◌, length, ◌≡◌};
ghost use Rattle.host_state.specs.Store.{chain_word, stage_word, progress_of, channel_word, channel_words, put_from, words_of};
ghost use Rattle.host_state.specs.Load.{stage_of, chain_of, channel_of, channel_at, state_of};

use channel::{Channel, Interrupt, Status};
use channel_request::Line;
use port::Which;
use step::Controller;
use step_bus::Control;
use word_address::{Address, Set};
use word_mode::{Mode, Reasons};
use word_reload::{Progress, Stage};

// ---- the words of a state

fn chain_word(chain: Option<(Which, Stage)>) -> u16
    ensures { result ≡ chain_word chain }
{
    match chain {
        None => 0,
        Some((w, _)) => u8::from(w) as u16,
    }
}

fn stage_word(chain: Option<(Which, Stage)>) -> u16
    ensures { result ≡ stage_word chain }
{
    match chain {
        Some((_, Stage::Entries(_))) => 1,
        _ => 0,
    }
}

fn progress_of(chain: Option<(Which, Stage)>) -> Progress
    ensures { result ≡ progress_of chain }
{
    match chain {
        Some((_, Stage::Entries(p))) => p,
        _ => Progress {
            left: 0,
            second: false,
            upper: 0,
        },
    }
}

fn channel_word(w: Option<Which>) -> u16
    ensures { result ≡ channel_word w }
{
    match w {
        None => 0,
        Some(w) => u8::from(w) as u16,
    }
}

fn channel_words(c: Channel) -> [u16; 31]
    ensures { result ≡ channel_words c }
{
    let interrupt = c.interrupt;
    [
        c.current.a.upper,
        c.current.a.lower,
        c.current.b.upper,
        c.current.b.lower,
        c.current.count,
        c.base.a.upper,
        c.base.a.lower,
        c.base.b.upper,
        c.base.b.lower,
        c.base.count,
        c.pattern,
        c.mask,
        c.mode.high,
        c.mode.low,
        c.chain.upper,
        c.chain.lower,
        c.interrupt.cie as u16,
        c.interrupt.ip as u16,
        c.interrupt.sip as u16,
        interrupt.vector as u16,
        c.interrupt.save,
        c.status.ca as u16,
        c.status.nac as u16,
        c.status.mch as u16,
        c.status.mcl as u16,
        c.status.why.tc as u16,
        c.status.why.mc as u16,
        c.status.why.eop as u16,
        c.line.active as u16,
        c.line.change as u16,
        c.pending as u16,
    ]
}

// A channel's words, put in from number `at` on.
fn put(w: &mut [u16; 72], at: usize, words: &[u16; 31])
    requires { (at ≤ 41) × (length words.now ≡ 31) }
    ensures { w.new ≡ put_from at words.now w.old }
{
    // By index: tried as copy_from_slice, and a single step takes 1550 instructions for 1408.
    let mut k = 0;
    while k < 31 {
        w[at + k] = words[k];
        k += 1;
    }
}

#[tactic(auto, unfolding(crate::specs::Store::put_from, crate::specs::Store::words_of))]
pub fn store(u: Controller) -> [u16; 72]
    ensures { result ≡ words_of u }
{
    let control = u.control;
    let chain = control.chain;
    let bus = control.bus;
    let served = control.served;
    let progress = progress_of(chain);
    let mut w = [0u16; 72];
    w[0] = u.pointer;
    w[1] = u.master;
    w[2] = chain_word(chain);
    w[3] = stage_word(chain);
    w[4] = progress.left;
    w[5] = progress.second as u16;
    w[6] = progress.upper;
    w[7] = channel_word(bus);
    w[8] = control.note as u16;
    w[9] = channel_word(served);
    put(&mut w, 10, &channel_words(u.one));
    put(&mut w, 41, &channel_words(u.two));
    w
}

// ---- the state of words

#[tactic(auto, using(facts::proofs::Look::look_none), unfolding(facts::specs::Look::look, crate::specs::Load::stage_of))]
fn stage_of(t: u16, p: Progress) -> Stage
    ensures { result ≡ stage_of t p }
{
    match t {
        1 => Stage::Entries(p),
        _ => Stage::Reload,
    }
}

#[tactic(auto, using(facts::proofs::Look::find_none), unfolding(crate::specs::Load::chain_of, facts::specs::Look::find))]
fn chain_of(t: u16, s: Stage) -> Option<(Which, Stage)>
    ensures { result ≡ chain_of t s }
{
    match t {
        1 => Some((Which::One, s)),
        2 => Some((Which::Two, s)),
        _ => None,
    }
}

#[tactic(auto, using(facts::proofs::Look::find_none), unfolding(crate::specs::Load::channel_of, facts::specs::Look::find))]
fn channel_of(t: u16) -> Option<Which>
    ensures { result ≡ channel_of t }
{
    match t {
        1 => Some(Which::One),
        2 => Some(Which::Two),
        _ => None,
    }
}

// The channel whose words stand from number `at` on.
fn channel_at(w: &[u16; 72], at: usize) -> Channel
    requires { at ≤ 41 }
    ensures { result ≡ channel_at at w.now }
{
    Channel {
        current: Set {
            a: Address {
                upper: w[at],
                lower: w[at + 1],
            },
            b: Address {
                upper: w[at + 2],
                lower: w[at + 3],
            },
            count: w[at + 4],
        },
        base: Set {
            a: Address {
                upper: w[at + 5],
                lower: w[at + 6],
            },
            b: Address {
                upper: w[at + 7],
                lower: w[at + 8],
            },
            count: w[at + 9],
        },
        pattern: w[at + 10],
        mask: w[at + 11],
        mode: Mode {
            high: w[at + 12],
            low: w[at + 13],
        },
        chain: Address {
            upper: w[at + 14],
            lower: w[at + 15],
        },
        interrupt: Interrupt {
            cie: w[at + 16] != 0,
            ip: w[at + 17] != 0,
            sip: w[at + 18] != 0,
            vector: (w[at + 19] % 256) as u8,
            save: w[at + 20],
        },
        status: Status {
            ca: w[at + 21] != 0,
            nac: w[at + 22] != 0,
            mch: w[at + 23] != 0,
            mcl: w[at + 24] != 0,
            why: Reasons {
                tc: w[at + 25] != 0,
                mc: w[at + 26] != 0,
                eop: w[at + 27] != 0,
            },
        },
        line: Line {
            active: w[at + 28] != 0,
            change: w[at + 29] != 0,
        },
        pending: w[at + 30] != 0,
    }
}

#[tactic(auto, unfolding(crate::specs::Load::state_of))]
pub fn load(w: [u16; 72]) -> Controller
    ensures { result ≡ state_of w }
{
    let stage = stage_of(
        w[3],
        Progress {
            left: w[4],
            second: w[5] != 0,
            upper: w[6],
        },
    );
    let chain = chain_of(w[2], stage);
    let bus = channel_of(w[7]);
    let served = channel_of(w[9]);
    Controller {
        pointer: w[0],
        master: w[1],
        control: Control {
            chain,
            bus,
            note: w[8] != 0,
            served,
        },
        one: channel_at(&w, 10),
        two: channel_at(&w, 41),
    }
}
