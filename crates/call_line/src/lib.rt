// The request lines.
#![tactic(auto)]

ghost use Rattle.std.specs.Prelude.{◌≡◌};
ghost use Rattle.call_line.specs.Lines.{lined, lined_at};

use channel::Channel;
use port::Which;
use refusal::Refusal;
use step::{Controller, Done};

// An inactive-to-active change is stored in every mode, masked or not.
#[tactic(auto, unfolding(crate::specs::Lines::lined))]
fn with_level(active: bool, mut c: Channel) -> Channel
    ensures { result ≡ lined active c }
{
    let change = c.line.change | (active & !c.line.active);
    c.line.change = change;
    c.line.active = active;
    c
}

#[tactic(auto, unfolding(crate::specs::Lines::lined_at))]
pub fn line(number: u32, active: bool, u: Controller) -> Done<Result<(), Refusal>>
    ensures { result ≡ lined_at number active u }
{
    match Which::try_from(number) {
        Ok(w) => Done {
            state: u.with_channel(w, with_level(active, u.channel(w))),
            answer: Ok(()),
        },
        Err(r) => Done {
            state: u,
            answer: Err(r),
        },
    }
}
