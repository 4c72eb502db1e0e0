// What a step leaves of what belongs to no channel.
#![tactic(auto)]

ghost use Rattle.std.specs.Prelude.{◌≡◌};
ghost use Rattle.step_bus.specs.After.{chain_after, unended_control, ended_control, held_control, control_fetched, back_control};

use port::Which;
use step_bus::{Back, Control};
use word_mode::RequestMode;
use word_reload::{Progress, Stage};

fn chain_after(chains: bool, w: Which, chain: Option<(Which, Stage)>) -> Option<(Which, Stage)>
    ensures { result ≡ chain_after chains w chain }
{
    if chains {
        Some((w, Stage::Reload))
    } else {
        chain
    }
}

pub fn unended_control(m: RequestMode, cpu: bool, w: Which, k: Control) -> Control
    ensures { result ≡ unended_control m cpu w k }
{
    let chain = k.chain;
    match m {
        RequestMode::Single => Control {
            chain,
            bus: None,
            note: k.note,
            served: Some(w),
        },
        RequestMode::DemandHold => Control {
            chain,
            bus: Some(w),
            note: k.note,
            served: Some(w),
        },
        RequestMode::DemandRelease => Control {
            chain,
            bus: Some(w),
            note: k.note,
            served: Some(w),
        },
        RequestMode::DemandInterleave => Control {
            chain,
            bus: None,
            note: cpu | k.note,
            served: Some(w),
        },
    }
}

// An end frees the bus.
pub fn ended_control(chains: bool, w: Which, k: Control) -> Control
    ensures { result ≡ ended_control chains w k }
{
    let chain = k.chain;
    Control {
        chain: chain_after(chains, w, chain),
        bus: None,
        note: k.note,
        served: Some(w),
    }
}

// EOP while holding ends the operation without a unit.
pub fn held_control(chains: bool, w: Which, k: Control) -> Control
    ensures { result ≡ held_control chains w k }
{
    let chain = k.chain;
    let served = k.served;
    Control {
        chain: chain_after(chains, w, chain),
        bus: None,
        note: k.note,
        served,
    }
}

pub fn control_fetched(
    next: Option<Progress>,
    cpu: bool,
    active: bool,
    w: Which,
    k: Control,
) -> Control
    ensures { result ≡ control_fetched next cpu active w k }
{
    let bus = k.bus;
    let served = k.served;
    match next {
        Some(p) => Control {
            chain: Some((w, Stage::Entries(p))),
            bus,
            note: k.note,
            served,
        },
        None => {
            if cpu {
                return Control {
                    chain: None,
                    bus,
                    note: true,
                    served,
                };
            }
            if active {
                return Control {
                    chain: None,
                    bus: Some(w),
                    note: k.note,
                    served,
                };
            }
            Control {
                chain: None,
                bus,
                note: k.note,
                served,
            }
        }
    }
}

// The note is cleared, or the bus is free.
pub fn give_back(back: Back, mut k: Control) -> Control
    ensures { result ≡ back_control back k }
{
    match back {
        Back::Note => {
            k.note = false;
            k
        }
        Back::Bus => {
            k.bus = None;
            k
        }
    }
}
