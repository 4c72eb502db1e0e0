// Several steps at once, proved to be the same steps one by one. A single step brings the whole state into variables and out again; here
// units that follow each other, and the words of a chain, share one loop on the registers that they change. Some functions stand here, and are
// called once, only so that the compiler puts them inside that loop.
#![tactic(auto)]

ghost use Rattle.std.specs.Prelude.{◌≡◌, cond};
ghost use Rattle.space.specs.Space.{spaces};
ghost use Rattle.port.specs.Ports.{other};
ghost use Rattle.step.specs.Step.{ran_as, hold_of};
ghost use Rattle.step_stride.specs.Stride.{once, is_in_turn, take_turns, pair_of, rested, fetches_by, stride_by, stride_of};

use channel::Channel;
use port::Which;
use step::{Answer, Controller, FetchAnswer, Ran};
use step_bus::Back;
use step_rules::Choice;
use unit::{Moved, Work};
use unit_stride::Pair;
use word_reload::Stage;

// Words of a chain, or its end by EOP.
#[tactic(auto, using(crate::proofs::CodeLaws::fetches), unfolding(step::specs::Fetching::drop_of))]
fn fetch(u: Controller, w: Which, stage: Stage, left: u32, eop: bool, memory: &[u8]) -> Ran
    ensures { result ≡ fetches_by eop w stage left u memory.now }
{
    let c = u.channel(w);
    if eop {
        return Ran {
            state: u.settle_drop(w, chain::drop_chain(c)),
            answer: Answer::Dropped(w),
            steps: 1,
        };
    }
    let l = chain_stride::fetch_on(stage, left, c, memory);
    let d = l.channel;
    let next = l.next;
    Ran {
        state: u.settle_fetch(w, d, next),
        answer: Answer::Fetched(w, FetchAnswer { upper: l.upper }),
        steps: l.words,
    }
}

// Whether a unit in demand interleave is what the channel would do now.
fn is_in_turn(c: Channel) -> bool
    ensures { result ≡ is_in_turn c }
{
    step_rules_code::is_interleaving(c) & c.is_candidate()
}

// Two channels in demand interleave take turns; CPU interleave set would give the bus back between them. The mode of the one that
// comes first is looked at first, since it mostly tells.
fn take_turns(u: Controller, w: Which) -> bool
    ensures { result ≡ take_turns u }
{
    if step_rules_code::is_interleave(u.request_mode(w)) {
        return !step_rules_code::is_interleaved(u.master) & (is_in_turn(u.one) & is_in_turn(u.two));
    }
    false
}

// The registers that the channels' units work on, and no whole channel, since a copy costs.
#[tactic(auto, unfolding(step::specs::Controller::at))]
fn pair(u: Controller, w: Which) -> Pair
    ensures { result ≡ pair_of w u }
{
    let one = step::work_of(u.one);
    let two = step::work_of(u.two);
    match w {
        Which::One => Pair {
            which: w,
            work: one,
            other: two,
        },
        Which::Two => Pair {
            which: w,
            work: two,
            other: one,
        },
    }
}

// A channel that rests has the registers that its latest unit left.
#[tactic(auto, unfolding(step::specs::Controller::at, step::specs::Controller::with))]
fn rest(mut u: Controller, w: Which, k: Work) -> Controller
    ensures { result ≡ rested w k u }
{
    let set = k.set;
    let compared = k.kept;
    let m = Moved {
        set,
        compared,
        tc: false,
        upper: 0,
    };
    match w {
        Which::One => {
            let c = u.one.with_moved(m);
            u.one = c;
            u
        }
        Which::Two => {
            let c = u.two.with_moved(m);
            u.two = c;
            u
        }
    }
}

// The channel whose unit is not the last rests; alone it has done none.
fn rest_other(u: Controller, both: bool, w: Which, k: Work) -> Controller
    ensures { result ≡ cond both (rested (other w) k u) u }
{
    let mut next = u;
    if both {
        let rested = rest(u, port::other(w), k);
        next = rested;
    }
    next
}

// Units that follow each other, of one channel or of two in turn.
fn units(u: Controller, w: Which, left: u32, eop: bool, memory: &mut [u8], io: &mut [u8]) -> Ran
    ensures { ran_as result (spaces memory.new io.new) ≡ stride_by (Choice.Unit w) left eop u (spaces memory.old io.old) }
{
    let both = take_turns(u, w);
    let limit = unit_stride::limit(both, u.request_mode(w), left, eop);
    let k = unit_stride::carry_on(
        space_board::lends(memory, io),
        pair(u, w),
        both,
        limit,
        memory,
        io,
    );
    let v = k.which;
    let m = k.moved;
    let rests = k.rests;
    let s = rest_other(u, both, v, rests).settle_unit(v, eop, m);
    let state = s.state;
    let answer = s.answer;
    Ran {
        state,
        answer,
        steps: k.units,
    }
}

#[tactic(auto, unfolding(step::specs::Step::hold_of))]
fn hold(u: Controller, w: Which, eop: bool) -> Ran
    ensures { result ≡ once (hold_of w eop u) }
{
    if eop {
        return Ran {
            state: u.end_held(w),
            answer: Answer::Ended(w),
            steps: 1,
        };
    }
    Ran {
        state: u,
        answer: Answer::Holding(w),
        steps: 1,
    }
}

// What was chosen is done, and what follows it.
#[tactic(auto, unfolding(step::specs::Step::perform_of, crate::specs::Stride::stride_by))]
fn perform(
    u: Controller,
    choice: Choice,
    left: u32,
    eop: bool,
    memory: &mut [u8],
    io: &mut [u8],
) -> Ran
    ensures { ran_as result (spaces memory.new io.new) ≡ stride_by choice left eop u (spaces memory.old io.old) }
{
    match choice {
        Choice::Disabled => Ran {
            state: u,
            answer: Answer::Disabled,
            steps: 1,
        },
        Choice::Refused(n) => Ran {
            state: u,
            answer: Answer::Refused(n),
            steps: 1,
        },
        Choice::Fetch(w, stage) => fetch(u, w, stage, left, eop, memory),
        Choice::GiveBack => Ran {
            state: u.give_back(Back::Note),
            answer: Answer::GivenBack(Back::Note),
            steps: 1,
        },
        Choice::Unit(w) => units(u, w, left, eop, memory, io),
        Choice::Hold(w) => hold(u, w, eop),
        Choice::Release => Ran {
            state: u.give_back(Back::Bus),
            answer: Answer::GivenBack(Back::Bus),
            steps: 1,
        },
        Choice::Idle => Ran {
            state: u,
            answer: Answer::Idle,
            steps: 1,
        },
    }
}

// Up to so many steps at once.
#[tactic(auto, unfolding(crate::specs::Stride::stride_of))]
pub fn stride(u: Controller, left: u32, eop: bool, memory: &mut [u8], io: &mut [u8]) -> Ran
    ensures { ran_as result (spaces memory.new io.new) ≡ stride_of left eop u (spaces memory.old io.old) }
{
    perform(
        u,
        u.choose(space_board::lends(memory, io)),
        left,
        eop,
        memory,
        io,
    )
}
