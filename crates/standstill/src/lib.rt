// Why a channel stands still: the first reason of document 02's list that is true of the state.
#![tactic(auto)]

ghost use Rattle.std.specs.Prelude.{◌≡◌};
ghost use Rattle.facts.specs.First.{first_or};
ghost use Rattle.step.specs.Controller.{at};
ghost use Rattle.step_rules.specs.declared.Choice.TheVariants.{Fetch, Unit};
ghost use Rattle.step_rules.specs.Rules.{beginning};
ghost use Rattle.step.specs.Choice.{facts_of, faults_of};
ghost use Rattle.standstill.specs.Causes.{chain_on_the_other, bus_kept_by_the_other, turn_of_the_other, own_by, requests_unmasked, cause_of, turn_causes, refusal_causes, request_causes, own_causes, why_of, why_at};

use channel::Channel;
use port::Which;
use refusal::Refusal;
use space_board::Board;
use step::Controller;
use word_reload::Stage;

// Nothing wrong stays a case: document 02's list ends with it, and it has the number 0 and words of its own.
#[derive(Clone, Copy, Debug, PartialEq, Eq)]
pub enum Cause {
    NothingWrong,
    Disabled,
    ChainOnTheOther,
    GiveBackNote,
    BusKeptByTheOther,
    Ca,
    Sip,
    Nac,
    Masked,
    NoRequest,
    OddChain,
    NotCarried,
    OddWord,
    TurnOfTheOther,
}

fn is_chain_on_the_other(w: Which, chain: Option<(Which, Stage)>) -> bool
    ensures { result ≡ chain_on_the_other w chain }
{
    match chain {
        None => false,
        Some((v, _)) => v != w,
    }
}

fn is_bus_kept_by_the_other(w: Which, bus: Option<Which>) -> bool
    ensures { result ≡ bus_kept_by_the_other w bus }
{
    bus == Some(port::other(w))
}

fn is_turn_of_the_other(
    w: Which,
    chain: Option<(Which, Stage)>,
    bus: Option<Which>,
    turn: Option<Which>,
) -> bool
    ensures { result ≡ turn_of_the_other w chain bus turn }
{
    chain.is_none() & bus.is_none() & (turn == Some(port::other(w)))
}

fn would_request_unmasked(c: Channel) -> bool
    ensures { result ≡ requests_unmasked c }
{
    channel_request::is_requesting(c.mode.with_mask(false), c.line)
}

#[tactic(auto, unfolding(crate::specs::Causes::cause_of))]
fn cause_of(refusal: Refusal) -> Cause
    ensures { result ≡ cause_of refusal }
{
    match refusal {
        Refusal::OddChain => Cause::OddChain,
        Refusal::NotCarried => Cause::NotCarried,
        Refusal::OddWord => Cause::OddWord,
        _ => Cause::NothingWrong,
    }
}

fn turn_cause(w: Which, u: Controller) -> Cause
    ensures { result ≡ first_or Cause.NothingWrong (turn_causes w (facts_of u)) }
{
    let control = u.control;
    let chain = control.chain;
    let bus = control.bus;
    if is_turn_of_the_other(w, chain, bus, u.turn()) {
        return Cause::TurnOfTheOther;
    }
    Cause::NothingWrong
}

// From the odd chain address on, for a fetch.
#[tactic(auto, using(crate::proofs::CodeLaws::unrefused, crate::proofs::CodeLaws::refused))]
fn fetch_cause(stage: Stage, w: Which, board: Board, u: Controller) -> Cause
    ensures { result ≡ first_or Cause.NothingWrong (refusal_causes (Fetch w stage) w (facts_of u) (faults_of board u)) }
{
    let refusal = step_rules_code::fetch_refusal(stage, u.channel(w).chain.is_odd());
    match refusal {
        None => turn_cause(w, u),
        Some(r) => cause_of(r),
    }
}

// From the operation on, for a unit.
#[tactic(auto, using(crate::proofs::CodeLaws::unrefused, crate::proofs::CodeLaws::refused), unfolding(unit::specs::Unit::unit_refusal))]
fn unit_cause(w: Which, board: Board, u: Controller) -> Cause
    ensures { result ≡ first_or Cause.NothingWrong (refusal_causes (Unit w) w (facts_of u) (faults_of board u)) }
{
    let c = u.channel(w);
    let refusal = unit::unit_refusal(board, c.mode, c.current);
    match refusal {
        None => turn_cause(w, u),
        Some(r) => cause_of(r),
    }
}

// From CA on, for a unit.
#[tactic(auto, using(crate::proofs::CodeLaws::asks))]
fn request_cause(w: Which, board: Board, u: Controller) -> Cause
    ensures { result ≡ first_or Cause.NothingWrong (request_causes (Unit w) w (at w u) (facts_of u) (faults_of board u)) }
{
    let c = u.channel(w);
    if c.status.ca {
        return Cause::Ca;
    }
    if c.interrupt.sip {
        return Cause::Sip;
    }
    if c.status.nac {
        return Cause::Nac;
    }
    if channel_request::is_requesting(c.mode, c.line) {
        return unit_cause(w, board, u);
    }
    if would_request_unmasked(c) {
        return Cause::Masked;
    }
    Cause::NoRequest
}

// Of a channel without a chain under way: its pending chain, or a unit.
#[tactic(auto, using(crate::proofs::CodeLaws::would))]
fn beginning_cause(w: Which, board: Board, u: Controller) -> Cause
    ensures { result ≡ first_or Cause.NothingWrong (own_causes (beginning (at w u).pending w) w (at w u) (facts_of u) (faults_of board u)) }
{
    if u.channel(w).pending {
        return fetch_cause(Stage::Reload, w, board, u);
    }
    request_cause(w, board, u)
}

#[tactic(auto, using(crate::proofs::CodeLaws::none, crate::proofs::CodeLaws::of_the_other, crate::proofs::CodeLaws::of_its_own))]
fn own_cause(w: Which, board: Board, u: Controller) -> Cause
    ensures { result ≡ first_or Cause.NothingWrong (own_causes (own_by u.control.chain (at w u).pending w) w (at w u) (facts_of u) (faults_of board u)) }
{
    let control = u.control;
    let chain = control.chain;
    match chain {
        None => beginning_cause(w, board, u),
        Some((v, stage)) => {
            if v != w {
                return beginning_cause(w, board, u);
            }
            fetch_cause(stage, w, board, u)
        }
    }
}

#[tactic(auto, using(crate::proofs::CodeLaws::passes), unfolding(crate::specs::Causes::why_of))]
fn first_cause(w: Which, board: Board, u: Controller) -> Cause
    ensures { result ≡ why_of board w u }
{
    if !step_rules_code::is_enabled(u.master) {
        return Cause::Disabled;
    }
    let control = u.control;
    let chain = control.chain;
    if is_chain_on_the_other(w, chain) {
        return Cause::ChainOnTheOther;
    }
    if control.note {
        return Cause::GiveBackNote;
    }
    let bus = control.bus;
    if is_bus_kept_by_the_other(w, bus) {
        return Cause::BusKeptByTheOther;
    }
    own_cause(w, board, u)
}

#[tactic(auto, unfolding(crate::specs::Causes::why_at))]
pub fn why(number: u32, board: Board, u: Controller) -> Result<Cause, Refusal>
    ensures { result ≡ why_at number board u }
{
    let w = Which::try_from(number)?;
    Ok(first_cause(w, board, u))
}
