// Units that follow each other with nothing between them, of one channel or of two that take turns.
#![tactic(auto)]

ghost use Rattle.std.specs.Prelude.{◌≡◌, cond, ◌-◌, ◌≤◌};
ghost use Rattle.space.specs.Space.{spaces};
ghost use Rattle.word_mode.specs.Mode.{operation_of, is_flipped};
ghost use Rattle.unit_stride.specs.Behind.{came_over, size_at, changes_behind, Tells};
ghost use Rattle.unit_stride.specs.Units.{is_dedicated, limit_of, onward, pass, follows, moved_on_as, moved_on, carried_as, onwards};

use port::Which;
use space::Width;
use space_board::Board;
use unit::{Moved, Work};
use word_address::{Address, Set};
use word_mode::{Mode, RequestMode};
use word_operation::Moves;

// Before a unit: whose it is, what it works on, and the registers of the other channel, which rests.
#[derive(Clone, Copy)]
pub struct Pair {
    pub which: Which,
    pub work: Work,
    pub other: Work,
}

// What the last unit of one channel made of its registers, and how many units there were.
#[derive(Clone, Copy)]
struct MovedOn {
    moved: Moved,
    units: u32,
}

// Whose the last unit was, what it made of the registers, those of the channel that rested, and how many units there were.
#[derive(Clone, Copy)]
pub struct Carried {
    pub which: Which,
    pub moved: Moved,
    pub rests: Work,
    pub units: u32,
}

// Both dedicated modes keep the bus after a unit.
fn is_dedicated(mode: RequestMode) -> bool
    ensures { result ≡ is_dedicated mode }
{
    matches!(mode, RequestMode::DemandHold | RequestMode::DemandRelease)
}

// Of so many steps, how many may be units that follow each other; EOP ends the first.
pub fn limit(both: bool, mode: RequestMode, left: u32, eop: bool) -> u32
    ensures { result ≡ limit_of both mode left eop }
{
    if !eop & (both | is_dedicated(mode)) {
        left
    } else {
        1
    }
}

// The registers as the unit leaves them.
fn onward(mut w: Work, m: Moved) -> Work
    ensures { result ≡ onward w m }
{
    let set = m.set;
    let compared = m.compared;
    w.set = set;
    w.kept = compared;
    w
}

// The other's turn.
fn pass(p: Pair, m: Moved) -> Pair
    ensures { result ≡ pass p m }
{
    let which = p.which;
    let on = onward(p.work, m);
    let rests = p.other;
    Pair {
        which: port::other(which),
        work: rests,
        other: on,
    }
}

// Whether a unit follows: this one does not end its operation, and the next is not refused.
fn follows(board: Board, m: Moved, next: Work) -> bool
    ensures { result ≡ follows board m next }
{
    !(m.tc | m.compared.met) & unit::unit_refusal(board, next.mode, next.set).is_none()
}

// ---- what the registers after a unit tell of its steps

// Whether the steps that led to this address, of so much in all, changed bits 23-16.
#[tactic(auto, using(crate::proofs::CodeLaws::down_or_hold), unfolding(word_tag::specs::Tag::direction_of))]
fn came_over(a: Address, by: u32) -> bool
    requires { by ≤ 4 }
    ensures { result ≡ came_over by a }
{
    let field = word_tag::step_of(a.upper);
    let lower = a.lower as u32;
    if field == 0 {
        lower < by
    } else {
        (field == 1) & (65536 <= lower + by)
    }
}

fn size_at(w: Width, a: Address) -> u32
    ensures { (result ≡ size_at w a) × (result ≤ 2) }
{
    stepping::step_size(word_tag::is_memory(a.upper), w)
}

// How many of the last unit's steps changed bits 23-16, told once a stride: to count them unit by unit would cost each unit.
#[tactic(auto, using(crate::proofs::CodeLaws::transfer_behind, crate::proofs::CodeLaws::search_behind, crate::proofs::CodeLaws::funnel_behind))]
fn changes_behind(mode: Mode, s: Set) -> u16
    ensures { result ≡ changes_behind (operation_of mode).moves (is_flipped mode) s }
{
    let o = mode.operation();
    let moves = o.moves;
    match moves {
        Moves::Transfer(w) => {
            let a = came_over(s.a, size_at(w, s.a));
            let b = came_over(s.b, size_at(w, s.b));
            unit_accesses::count_changes(a, b, false)
        }
        Moves::Search(w) => {
            let from = s.source(mode.is_flipped());
            unit_accesses::count_changes(came_over(from, size_at(w, from)), false, false)
        }
        Moves::Funnel => {
            let a = came_over(s.a, 2 * size_at(Width::Byte, s.a));
            unit_accesses::count_changes(a, came_over(s.b, 2), false)
        }
    }
}

// ---- units that follow each other

// A unit, and those of the same channel that follow it, up to a limit.
fn move_on(board: Board, w: Work, limit: u32, memory: &mut [u8], io: &mut [u8]) -> MovedOn
    ensures { (moved_on_as result (spaces memory.new io.new) ≡ moved_on board (limit - 1) 0 w (spaces memory.old io.old)) × Tells w.mode result.moved }
{
    let set = w.set;
    let compared = w.kept;
    let mut work = w;
    let mut moved = Moved {
        set,
        compared,
        tc: false,
        upper: 0,
    };
    let mut units: u32 = 0;
    let mut going = true;
    // No for: a unit is done whatever the limit, and the count is the answer.
    while going {
        moved = unit::carry(work, memory, io);
        units += 1;
        work = onward(work, moved);
        going = (units < limit) & follows(board, moved, work);
    }
    MovedOn { moved, units }
}

// A turn of two is one unit.
fn turn_limit(both: bool, limit: u32) -> u32
    ensures { result ≡ cond both 1 limit }
{
    if both { 1 } else { limit }
}

// Units of one channel, or of both in turn, up to a limit. The inner loop has what stays the same from unit to unit outside of it.
pub fn carry_on(
    board: Board,
    first: Pair,
    both: bool,
    limit: u32,
    memory: &mut [u8],
    io: &mut [u8],
) -> Carried
    ensures { carried_as result (spaces memory.new io.new) ≡ onwards board both (limit - 1) 0 first (spaces memory.old io.old) }
{
    let most = turn_limit(both, limit);
    let work = first.work;
    let set = work.set;
    let compared = work.kept;
    let mut moved = Moved {
        set,
        compared,
        tc: false,
        upper: 0,
    };
    let mut pair = first;
    let mut next = first;
    let mut units: u32 = 0;
    let mut going = true;
    // No for: a turn counts as many units as its inner loop did.
    while going {
        pair = next;
        let k = move_on(board, pair.work, most, memory, io);
        let m = k.moved;
        moved = m;
        units += k.units;
        going = false;
        if both {
            next = pass(pair, moved);
            going = (units < limit) & follows(board, moved, next.work);
        }
    }
    let which = pair.which;
    let rests = pair.other;
    let upper = changes_behind(pair.work.mode, moved.set);
    moved.upper = upper;
    Carried {
        which,
        moved,
        rests,
        units,
    }
}
