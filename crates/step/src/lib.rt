// The controller: its state, which step comes next, and the step.
#![tactic(auto)]

ghost use Rattle.std.specs.Prelude.{◌≡◌, true};
ghost use Rattle.facts.specs.First.{first_some};
ghost use Rattle.space.specs.Space.{spaces};
ghost use Rattle.step_rules.specs.Rules.{beginning, turned, intent_by, intent_of, refusals};
ghost use Rattle.step_rules_code.specs.Channels.{keeper};
ghost use Rattle.word_mode.specs.Mode.{request_mode_of};
ghost use Rattle.word_address.specs.Address.{is_odd};
ghost use Rattle.unit.specs.Unit.{unit_refusal};
ghost use Rattle.step_bus.specs.After.{dropped_control};
ghost use Rattle.step.specs.Set.{◌⟨control≔◌⟩};
ghost use Rattle.step.specs.Controller.{at, with};
ghost use Rattle.step.specs.Choice.{turn, facts_of, faults_of, choice};
ghost use Rattle.step.specs.Fetching.{after_word, fetch_of};
ghost use Rattle.step.specs.Step.{outcome, work_of, gone_on, ended_after, unit_of, hold_of, back_of, perform_of, step_of};

use channel::Channel;
use port::Which;
use refusal::Refusal;
use space::{MemoryAddress, Width};
use space_board::Board;
use step_bus::{Back, Control};
use step_rules::Choice;
use unit::{Moved, Work};
use unit_comparison::Compared;
use word_mode::{Reasons, RequestMode};
use word_reload::{Progress, Stage};

#[derive(Clone, Copy)]
pub struct Controller {
    pub pointer: u16,
    pub master: u16,
    pub control: Control,
    pub one: Channel,
    pub two: Channel,
}

// What the answer of a unit tells: its end reasons, and how many of its steps changed bits 23-16.
#[derive(Clone, Copy)]
pub struct UnitAnswer {
    pub why: Reasons,
    pub upper: u16,
}

// What the answer of a fetch tells: whether its step changed bits 23-16 of the chain address.
#[derive(Clone, Copy)]
pub struct FetchAnswer {
    pub upper: bool,
}

#[derive(Clone, Copy)]
pub enum Answer {
    Refused(Refusal),
    Disabled,
    Idle,
    GivenBack(Back),
    Holding(Which),
    Fetched(Which, FetchAnswer),
    Dropped(Which),
    Unit(Which, UnitAnswer),
    Ended(Which),
}

// What a call leaves, and what it answers.
#[derive(Clone, Copy)]
pub struct Done<A> {
    pub state: Controller,
    pub answer: A,
}

// What the last of some steps leaves and answers, and how many they were.
#[derive(Clone, Copy)]
pub struct Ran {
    pub state: Controller,
    pub answer: Answer,
    pub steps: u32,
}

// The registers that a channel's unit works on.
pub fn work_of(c: Channel) -> Work
    ensures { result ≡ work_of c }
{
    let set = c.current;
    let mode = c.mode;
    Work {
        set,
        mode,
        pattern: c.pattern,
        mask: c.mask,
        kept: Compared {
            mch: c.status.mch,
            mcl: c.status.mcl,
            met: false,
        },
    }
}

impl Controller {
    #[tactic(auto, unfolding(crate::specs::Controller::at))]
    pub fn channel(self, w: Which) -> Channel
        ensures { result ≡ at w self }
    {
        match w {
            Which::One => self.one,
            Which::Two => self.two,
        }
    }

    #[tactic(auto, unfolding(crate::specs::Controller::with))]
    pub fn with_channel(mut self, w: Which, c: Channel) -> Controller
        ensures { result ≡ with w c self }
    {
        match w {
            Which::One => {
                self.one = c;
                self
            }
            Which::Two => {
                self.two = c;
                self
            }
        }
    }

    // A channel and the controller's own state anew.
    fn with_both(mut self, w: Which, c: Channel, k: Control) -> Controller
        ensures { result ≡ with w c (self ⟨control≔ k ⟩) }
    {
        self.control = k;
        self.with_channel(w, c)
    }

    // ---- which step comes next

    // Each looks at a channel in an arm of its own: tried as one `fn at(&self, w) -> &Channel`, and a transfer takes 139.2 instructions in a
    // run for 135.2, a pair 246.2 for 240.2.
    #[tactic(auto, unfolding(crate::specs::Controller::at))]
    fn begin(self, w: Which) -> Choice
        ensures { result ≡ beginning (at w self).pending w }
    {
        match w {
            Which::One => step_rules_code::begin_intent(self.one.pending, Which::One),
            Which::Two => step_rules_code::begin_intent(self.two.pending, Which::Two),
        }
    }

    // Whose turn it is among the candidates.
    #[tactic(auto, unfolding(crate::specs::Choice::turn))]
    pub fn turn(self) -> Option<Which>
        ensures { result ≡ turn self }
    {
        let both = step_rules_code::is_interleaving(self.one)
            & step_rules_code::is_interleaving(self.two);
        let control = self.control;
        let served = control.served;
        step_rules_code::whose_turn(
            self.one.is_candidate(),
            self.two.is_candidate(),
            both,
            served,
        )
    }

    #[tactic(auto, using(crate::proofs::CodeLaws::nobodys, crate::proofs::CodeLaws::whose))]
    fn candidate_intent(self) -> Choice
        ensures { result ≡ turned (turn self) (facts_of self) }
    {
        let turn = self.turn();
        match turn {
            None => Choice::Idle,
            Some(w) => self.begin(w),
        }
    }

    #[tactic(auto, unfolding(crate::specs::Controller::at))]
    fn keeper(self, w: Which) -> Choice
        ensures { result ≡ keeper w (at w self) }
    {
        match w {
            Which::One => step_rules_code::keeper_intent(Which::One, self.one),
            Which::Two => step_rules_code::keeper_intent(Which::Two, self.two),
        }
    }

    // Rules 2 to 6.
    fn enabled_intent(self) -> Choice
        ensures { result ≡ intent_by true self.control.chain self.control.note self.control.bus (facts_of self) }
    {
        let control = self.control;
        let chain = control.chain;
        match chain {
            Some((w, stage)) => Choice::Fetch(w, stage),
            None => {
                if control.note {
                    return Choice::GiveBack;
                }
                let bus = control.bus;
                match bus {
                    Some(w) => self.keeper(w),
                    None => self.candidate_intent(),
                }
            }
        }
    }

    // What the rules intend, in their order.
    #[tactic(auto, using(crate::proofs::CodeLaws::rule_1, crate::proofs::CodeLaws::rules_on))]
    fn intent(self) -> Choice
        ensures { result ≡ intent_of (facts_of self) }
    {
        if step_rules_code::is_enabled(self.master) {
            return self.enabled_intent();
        }
        Choice::Disabled
    }

    #[tactic(auto, unfolding(crate::specs::Controller::at))]
    fn has_odd_table(self, w: Which) -> bool
        ensures { result ≡ is_odd (at w self).chain }
    {
        match w {
            Which::One => self.one.chain.is_odd(),
            Which::Two => self.two.chain.is_odd(),
        }
    }

    #[tactic(auto, unfolding(crate::specs::Controller::at))]
    fn unit_refusal(self, board: Board, w: Which) -> Option<Refusal>
        ensures { result ≡ unit_refusal board (at w self).mode (at w self).current }
    {
        match w {
            Which::One => unit::unit_refusal(board, self.one.mode, self.one.current),
            Which::Two => unit::unit_refusal(board, self.two.mode, self.two.current),
        }
    }

    // What refuses what is intended, if anything does. No rule of document 01 looks at the board.
    #[tactic(auto, unfolding(unit::specs::Unit::unit_refusal))]
    fn refusal(self, board: Board, intent: Choice) -> Option<Refusal>
        ensures { result ≡ first_some (refusals intent (faults_of board self)) }
    {
        match intent {
            Choice::Disabled => None,
            Choice::Refused(_) => None,
            Choice::Fetch(w, stage) => step_rules_code::fetch_refusal(stage, self.has_odd_table(w)),
            Choice::GiveBack => None,
            Choice::Unit(w) => self.unit_refusal(board, w),
            Choice::Hold(_) => None,
            Choice::Release => None,
            Choice::Idle => None,
        }
    }

    // Which step comes next: the first refusal of what the rules intend, or the intent.
    #[tactic(auto, unfolding(crate::specs::Choice::choice, step_rules::specs::Rules::choice_of))]
    pub fn choose(self, board: Board) -> Choice
        ensures { result ≡ choice board self }
    {
        let intent = self.intent();
        step_rules_code::refused_or(self.refusal(board, intent), intent)
    }

    // ---- a chain's word

    // The controller after EOP with a fetch, whose channel is d: its chain is dropped.
    pub fn settle_drop(self, w: Which, d: Channel) -> Controller
        ensures { result ≡ with w d (self ⟨control≔ dropped_control self.control ⟩) }
    {
        let k = self.control;
        let bus = k.bus;
        let served = k.served;
        let next = Control {
            chain: None,
            bus,
            note: k.note,
            served,
        };
        self.with_both(w, d, next)
    }

    // The controller after a word of a chain, whose channel is then d.
    #[tactic(auto, using(crate::proofs::CodeLaws::fetched))]
    pub fn settle_fetch(self, w: Which, d: Channel, next: Option<Progress>) -> Controller
        ensures { result ≡ after_word w d next self }
    {
        let k = self.control;
        let active = channel_request::is_requesting(d.mode, d.line);
        let after = step_bus_code::control_fetched(
            next,
            step_rules_code::is_interleaved(self.master),
            active,
            w,
            k,
        );
        self.with_both(w, d, after)
    }

    // The next word of a chain, or its end by EOP.
    #[tactic(auto, unfolding(crate::specs::Fetching::drop_of, crate::specs::Fetching::fetch_of))]
    fn fetch(self, w: Which, stage: Stage, eop: bool, memory: &[u8]) -> Done<Answer>
        ensures { result ≡ fetch_of w stage eop self memory.now }
    {
        let c = self.channel(w);
        if eop {
            return Done {
                state: self.settle_drop(w, chain::drop_chain(c)),
                answer: Answer::Dropped(w),
            };
        }
        let word = space::read_memory(memory, MemoryAddress(c.chain.number()), Width::Word);
        let l = chain::fetch(stage, word, c);
        let d = l.channel;
        let next = l.next;
        Done {
            state: self.settle_fetch(w, d, next),
            answer: Answer::Fetched(w, FetchAnswer { upper: l.upper }),
        }
    }

    // ---- a unit

    #[tactic(auto, unfolding(crate::specs::Controller::at))]
    pub fn request_mode(self, w: Which) -> RequestMode
        ensures { result ≡ request_mode_of (at w self).mode }
    {
        match w {
            Which::One => self.one.mode.request_mode(),
            Which::Two => self.two.mode.request_mode(),
        }
    }

    // A unit that does not end its operation.
    fn go_on(mut self, w: Which, m: Moved) -> Controller
        ensures { result ≡ gone_on w self m }
    {
        let k = self.control;
        let cpu = step_rules_code::is_interleaved(self.master);
        let next = step_bus_code::unended_control(self.request_mode(w), cpu, w, k);
        self.control = next;
        match w {
            Which::One => {
                let c = self.one.go_on(m);
                self.one = c;
                self
            }
            Which::Two => {
                let c = self.two.go_on(m);
                self.two = c;
                self
            }
        }
    }

    // A unit that ends it.
    #[tactic(auto, unfolding(crate::specs::Step::ended_after))]
    fn end_after(self, w: Which, why: Reasons, m: Moved) -> Controller
        ensures { result ≡ ended_after w why self m }
    {
        let k = self.control;
        let e = self.channel(w).end_after(w, why, m);
        let d = e.channel;
        let next = step_bus_code::ended_control(e.chains, w, k);
        self.with_both(w, d, next)
    }

    // A channel after its unit, and the controller with it.
    #[tactic(auto, using(crate::proofs::CodeLaws::settles_on, crate::proofs::CodeLaws::settles_ended))]
    pub fn settle_unit(self, w: Which, eop: bool, m: Moved) -> Done<Answer>
        ensures { result ≡ unit_of w eop self m }
    {
        let why = Reasons {
            tc: m.tc,
            mc: m.compared.met,
            eop,
        };
        let mut next = self;
        if why.any() {
            let ended = self.end_after(w, why, m);
            next = ended;
        } else {
            let gone = self.go_on(w, m);
            next = gone;
        }
        Done {
            state: next,
            answer: Answer::Unit(
                w,
                UnitAnswer {
                    why,
                    upper: m.upper,
                },
            ),
        }
    }

    fn unit(self, w: Which, eop: bool, memory: &mut [u8], io: &mut [u8]) -> Done<Answer>
        ensures { outcome result (spaces memory.new io.new) ≡ perform_of (Choice.Unit w) eop self (spaces memory.old io.old) }
    {
        let m = unit::carry(work_of(self.channel(w)), memory, io);
        self.settle_unit(w, eop, m)
    }

    // ---- holding, and given back

    // EOP while holding ends the operation.
    #[tactic(auto, unfolding(crate::specs::Step::hold_of))]
    pub fn end_held(self, w: Which) -> Controller
        ensures { result ≡ (hold_of w true self).state }
    {
        let e = self.channel(w).end(
            w,
            Reasons {
                tc: false,
                mc: false,
                eop: true,
            },
        );
        let d = e.channel;
        let k = self.control;
        self.with_both(w, d, step_bus_code::held_control(e.chains, w, k))
    }

    #[tactic(auto, unfolding(crate::specs::Step::hold_of))]
    fn hold(self, w: Which, eop: bool) -> Done<Answer>
        ensures { result ≡ hold_of w eop self }
    {
        if eop {
            return Done {
                state: self.end_held(w),
                answer: Answer::Ended(w),
            };
        }
        Done {
            state: self,
            answer: Answer::Holding(w),
        }
    }

    // The note is cleared, or the bus given back.
    pub fn give_back(mut self, back: Back) -> Controller
        ensures { result ≡ (back_of back self).state }
    {
        let k = self.control;
        let next = step_bus_code::give_back(back, k);
        self.control = next;
        self
    }

    // ---- a step

    // What was chosen is done.
    #[tactic(auto, unfolding(crate::specs::Step::perform_of))]
    fn perform(self, choice: Choice, eop: bool, memory: &mut [u8], io: &mut [u8]) -> Done<Answer>
        ensures { outcome result (spaces memory.new io.new) ≡ perform_of choice eop self (spaces memory.old io.old) }
    {
        match choice {
            Choice::Disabled => Done {
                state: self,
                answer: Answer::Disabled,
            },
            Choice::Refused(n) => Done {
                state: self,
                answer: Answer::Refused(n),
            },
            Choice::Fetch(w, stage) => self.fetch(w, stage, eop, memory),
            Choice::GiveBack => Done {
                state: self.give_back(Back::Note),
                answer: Answer::GivenBack(Back::Note),
            },
            Choice::Unit(w) => self.unit(w, eop, memory, io),
            Choice::Hold(w) => self.hold(w, eop),
            Choice::Release => Done {
                state: self.give_back(Back::Bus),
                answer: Answer::GivenBack(Back::Bus),
            },
            Choice::Idle => Done {
                state: self,
                answer: Answer::Idle,
            },
        }
    }

    // One step, with EOP given or not.
    #[tactic(auto, unfolding(crate::specs::Step::step_of))]
    pub fn step(self, eop: bool, memory: &mut [u8], io: &mut [u8]) -> Done<Answer>
        ensures { outcome result (spaces memory.new io.new) ≡ step_of eop self (spaces memory.old io.old) }
    {
        self.perform(self.choose(space_board::lends(memory, io)), eop, memory, io)
    }
}
