// One unit: what its accesses and its comparison make of the registers that it works on.
#![tactic(auto)]

ghost use Rattle.std.specs.Prelude.{◌≡◌, cond};
ghost use Rattle.space.specs.Space.{spaces};
ghost use Rattle.unit_comparison.specs.Comparison.{comparison};
ghost use Rattle.unit.specs.Unit.{odd_at, odd_word, unit_refusal, whole, worked};

use refusal::Refusal;
use space::Width;
use space_board::Board;
use unit_comparison::Compared;
use word_address::{Address, Set};
use word_mode::Mode;
use word_operation::Moves;

// What a unit works on.
#[derive(Clone, Copy)]
pub struct Work {
    pub set: Set,
    pub mode: Mode,
    pub pattern: u16,
    pub mask: u16,
    pub kept: Compared,
}

// What a unit makes of it, and how many of its steps changed bits 23-16.
#[derive(Clone, Copy)]
pub struct Moved {
    pub set: Set,
    pub compared: Compared,
    pub tc: bool,
    pub upper: u16,
}

fn is_odd_at(w: Width, a: Address) -> bool
    ensures { result ≡ odd_at w a }
{
    match w {
        Width::Byte => false,
        Width::Word => a.is_odd(),
    }
}

// A word side at an odd address that the unit uses; a search uses its source alone.
#[tactic(auto, using(crate::proofs::CodeLaws::transfer_odd, crate::proofs::CodeLaws::search_odd, crate::proofs::CodeLaws::funnel_odd, crate::proofs::CodeLaws::even_even))]
fn is_odd_word(moves: Moves, flip: bool, s: Set) -> bool
    ensures { result ≡ odd_word moves flip s }
{
    if s.a.is_odd() | s.b.is_odd() {
        match moves {
            Moves::Transfer(w) => is_odd_at(w, s.a) | is_odd_at(w, s.b),
            Moves::Search(w) => is_odd_at(w, s.source(flip)),
            Moves::Funnel => is_odd_at(Width::Word, s.b),
        }
    } else {
        false
    }
}

// What a unit is refused by, if by anything.
#[tactic(auto, unfolding(crate::specs::Unit::unit_refusal))]
pub fn unit_refusal(board: Board, mode: Mode, s: Set) -> Option<Refusal>
    ensures { result ≡ unit_refusal board mode s }
{
    let o = mode.operation();
    let moves = o.moves;
    let odd = is_odd_word(moves, mode.is_flipped(), s);
    if o.carried {
        if odd { Some(Refusal::OddWord) } else { None }
    } else {
        Some(Refusal::NotCarried)
    }
}

// Only some operations compare; the others leave what was kept.
fn compare(
    compares: bool,
    width: Width,
    datum: u16,
    pattern: u16,
    mask: u16,
    control: u16,
    kept: Compared,
) -> Compared
    ensures { result ≡ cond compares (comparison width datum pattern mask control) kept }
{
    if compares {
        unit_comparison::compare(width, datum, pattern, mask, control)
    } else {
        kept
    }
}

// The unit: read, write, step and count, then compare.
pub fn carry(w: Work, memory: &mut [u8], io: &mut [u8]) -> Moved
    ensures { whole result (spaces memory.new io.new) ≡ worked w (spaces memory.old io.old) }
{
    let mode = w.mode;
    let set = w.set;
    let o = mode.operation();
    let moves = o.moves;
    let done = unit_accesses::access(moves, mode.is_flipped(), set, memory, io);
    let next = done.set;
    let compared = compare(
        o.compares,
        moves.datum_width(),
        done.datum,
        w.pattern,
        w.mask,
        mode.match_control(),
        w.kept,
    );
    Moved {
        set: next,
        compared,
        tc: unit_count::is_terminal(next.count),
        upper: done.upper,
    }
}
