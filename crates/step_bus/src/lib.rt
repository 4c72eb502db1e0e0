// What belongs to no channel: who has the bus, which chain is under way, who was served last.
#![tactic(auto)]

use port::Which;
use word_reload::Stage;

// What belongs to no channel: the chain under way and its next word, the channel that keeps the bus, the give-back note, and the channel
// of the latest unit.
#[derive(Clone, Copy, Debug, PartialEq, Eq)]
pub struct Control {
    pub chain: Option<(Which, Stage)>,
    pub bus: Option<Which>,
    pub note: bool,
    pub served: Option<Which>,
}

// The two cases of given back: the note, or the bus.
#[derive(Clone, Copy, Debug, PartialEq, Eq)]
pub enum Back {
    Note,
    Bus,
}
