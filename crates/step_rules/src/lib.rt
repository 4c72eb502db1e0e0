// Which step comes next.
#![tactic(auto)]

use port::Which;
use refusal::Refusal;
use word_reload::Stage;

#[derive(Clone, Copy, Debug, PartialEq, Eq)]
pub enum Choice {
    Disabled,
    Refused(Refusal),
    Fetch(Which, Stage),
    GiveBack,
    Unit(Which),
    Hold(Which),
    Release,
    Idle,
}
