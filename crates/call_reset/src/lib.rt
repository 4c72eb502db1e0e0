// Reset, and a fresh controller.
#![tactic(auto)]

ghost use Rattle.std.specs.Prelude.{◌≡◌};
ghost use Rattle.call_reset.specs.Reset.{reset_of, no_register, no_set, no_channel, fresh_of};

use channel::{Channel, Interrupt, Status};
use channel_request::Line;
use step::Controller;
use step_bus::Control;
use word_address::{Address, Set};
use word_mode::{Mode, Reasons};

#[tactic(auto, unfolding(crate::specs::Reset::reset_of))]
pub fn reset(u: Controller) -> Controller
    ensures { result ≡ reset_of u }
{
    Controller {
        pointer: u.pointer,
        master: 0,
        control: Control {
            chain: None,
            bus: None,
            note: false,
            served: None,
        },
        one: u.one.reset(),
        two: u.two.reset(),
    }
}

// ---- a fresh controller

fn no_register() -> Address
    ensures { result ≡ no_register }
{
    Address { upper: 0, lower: 0 }
}

fn no_set() -> Set
    ensures { result ≡ no_set }
{
    Set {
        a: no_register(),
        b: no_register(),
        count: 0,
    }
}

fn no_channel() -> Channel
    ensures { result ≡ no_channel }
{
    Channel {
        current: no_set(),
        base: no_set(),
        pattern: 0,
        mask: 0,
        mode: Mode { high: 0, low: 0 },
        chain: no_register(),
        interrupt: Interrupt {
            cie: false,
            ip: false,
            sip: false,
            vector: 0,
            save: 0,
        },
        status: Status {
            ca: false,
            nac: false,
            mch: false,
            mcl: false,
            why: Reasons {
                tc: false,
                mc: false,
                eop: false,
            },
        },
        line: Line {
            active: false,
            change: false,
        },
        pending: false,
    }
}

// All zeros, then reset.
#[tactic(auto, unfolding(crate::specs::Reset::fresh_of))]
pub fn fresh() -> Controller
    ensures { result ≡ fresh_of }
{
    let zeros = Controller {
        pointer: 0,
        master: 0,
        control: Control {
            chain: None,
            bus: None,
            note: false,
            served: None,
        },
        one: no_channel(),
        two: no_channel(),
    };
    reset(zeros)
}
