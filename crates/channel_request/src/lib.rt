// A channel's request: its line, its mask and its software bit.
#![tactic(auto)]

ghost use Rattle.std.specs.Prelude.{◌≡◌};
ghost use Rattle.channel_request.specs.Request.{arrived, requests};

use word_mode::{Mode, RequestMode};

// The request line: its level, and an inactive-to-active change that is stored and unspent.
#[derive(Clone, Copy)]
pub struct Line {
    pub active: bool,
    pub change: bool,
}

fn has_arrived(mode: RequestMode, line: Line) -> bool
    ensures { result ≡ arrived mode line }
{
    match mode {
        RequestMode::Single => line.change,
        RequestMode::DemandHold => line.active,
        RequestMode::DemandRelease => line.active,
        RequestMode::DemandInterleave => line.active,
    }
}

#[tactic(auto, unfolding(crate::specs::Request::requests))]
pub fn is_requesting(mode: Mode, line: Line) -> bool
    ensures { result ≡ requests mode line }
{
    mode.is_requested() | (!mode.is_masked() & has_arrived(mode.request_mode(), line))
}
