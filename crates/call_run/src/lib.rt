// A run of steps.
#![tactic(auto)]

ghost use Rattle.std.specs.Prelude.{◌≡◌, false};
ghost use Rattle.space.specs.Space.{spaces};
ghost use Rattle.step.specs.Step.{ran_as};
ghost use Rattle.call_run.specs.Run.{stops, advance_of, run_of};

use refusal::Refusal;
use step::{Answer, Controller, Ran};

fn is_stop(a: Answer) -> bool
    ensures { result ≡ stops a }
{
    matches!(
        a,
        Answer::Refused(_) | Answer::Disabled | Answer::Idle | Answer::Holding(_)
    )
}

// Up to a budget of steps, with EOP given at each or at none. What is linked from C has its only call of the stride here, so that the
// compiler puts it inside the loop.
pub fn advance(u: Controller, budget: u32, eop: bool, memory: &mut [u8], io: &mut [u8]) -> Ran
    ensures { ran_as result (spaces memory.new io.new) ≡ advance_of eop budget u (spaces memory.old io.old) }
{
    let mut state = u;
    let mut answer = Answer::Idle;
    let mut done: u32 = 0;
    // No for: a turn takes as many steps as its stride made, and their count is the answer.
    while done < budget {
        let next = step_stride::stride(state, budget - done, eop, memory, io);
        state = next.state;
        answer = next.answer;
        if is_stop(answer) {
            return Ran {
                state,
                answer,
                steps: done,
            };
        }
        done += next.steps;
    }
    Ran {
        state,
        answer,
        steps: done,
    }
}

// Up to 65,536 steps without EOP.
#[tactic(auto, using(crate::proofs::CodeLaws::whole, crate::proofs::CodeLaws::refused))]
pub fn run(u: Controller, budget: u32, memory: &mut [u8], io: &mut [u8]) -> Ran
    ensures { ran_as result (spaces memory.new io.new) ≡ run_of budget u (spaces memory.old io.old) }
{
    if 65536 < budget {
        return Ran {
            state: u,
            answer: Answer::Refused(Refusal::LongRun),
            steps: 0,
        };
    }
    advance(u, budget, false, memory, io)
}
