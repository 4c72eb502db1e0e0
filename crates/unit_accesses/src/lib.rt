// The accesses of a unit: what it reads and writes, and the registers that step after each.
#![tactic(auto)]

ghost use Rattle.std.specs.Prelude.{◌≡◌, true, false, ◌+◌};
ghost use Rattle.facts.specs.Bits.{bit_if};
ghost use Rattle.space.specs.Space.{spaces, read_at, written};
ghost use Rattle.unit_count.specs.Count.{fewer};
ghost use Rattle.word_operation.specs.declared.Moves.TheVariants.{Transfer, Search, Funnel};
ghost use Rattle.word_address.specs.Address.{place_of, stepped_on, step_to};
ghost use Rattle.unit_accesses.specs.Accesses.{set_of, done_as, accessed};

use space::Width;
use word_address::{Address, AddressStep, Set};
use word_operation::Moves;

// What a read leaves: its datum and the register's step after it.
#[derive(Clone, Copy)]
struct Got {
    datum: u16,
    step: AddressStep,
}

#[tactic(auto, unfolding(word_address::specs::Address::place_of))]
fn read_on(a: Address, w: Width, memory: &[u8], io: &[u8]) -> Got
    ensures { (result.datum ≡ read_at w (spaces memory.now io.now) (place_of a)) × (result.step ≡ step_to a (stepped_on w a)) }
{
    let n = a.number();
    let datum = space::read(
        memory,
        io,
        space::place_at(word_tag::is_memory(a.upper), n),
        w,
    );
    Got {
        datum,
        step: a.stepped_from(n, w),
    }
}

// The register's step after a write.
#[tactic(auto, unfolding(word_address::specs::Address::place_of))]
fn write_on(a: Address, w: Width, datum: u16, memory: &mut [u8], io: &mut [u8]) -> AddressStep
    ensures { (result ≡ step_to a (stepped_on w a)) × (spaces memory.new io.new ≡ written w (spaces memory.old io.old) (place_of a) datum) }
{
    let n = a.number();
    space::write(
        memory,
        io,
        space::place_at(word_tag::is_memory(a.upper), n),
        w,
        datum,
    );
    a.stepped_from(n, w)
}

// What a unit's accesses leave: the registers stepped and counted, the datum, and how many of the steps changed bits 23-16.
#[derive(Clone, Copy)]
pub struct Accessed {
    pub set: Set,
    pub datum: u16,
    pub upper: u16,
}

// How many of a unit's steps changed bits 23-16; where it makes fewer than three, the rest did not.
pub fn count_changes(first: bool, second: bool, third: bool) -> u16
    ensures { result ≡ bit_if first 1 + bit_if second 1 + bit_if third 1 }
{
    first as u16 + second as u16 + third as u16
}

// The sides' next registers in their places, and the count one less.
fn next_set(flip: bool, source: Address, destination: Address, count: u16) -> Set
    ensures { result ≡ set_of flip source destination (fewer count) }
{
    let fewer = unit_count::one_fewer(count);
    if flip {
        Set {
            a: destination,
            b: source,
            count: fewer,
        }
    } else {
        Set {
            a: source,
            b: destination,
            count: fewer,
        }
    }
}

fn transfer(flip: bool, s: Set, w: Width, memory: &mut [u8], io: &mut [u8]) -> Accessed
    ensures { done_as result (spaces memory.new io.new) ≡ accessed (Transfer w) flip s (spaces memory.old io.old) }
{
    let got = read_on(s.source(flip), w, memory, io);
    let to = write_on(s.destination(flip), w, got.datum, memory, io);
    Accessed {
        set: next_set(flip, got.step.next, to.next, s.count),
        datum: got.datum,
        upper: count_changes(got.step.upper, to.upper, false),
    }
}

// A search changes neither space and steps its source alone.
fn search_source(flip: bool, s: Set, w: Width, memory: &[u8], io: &[u8]) -> Accessed
    ensures { done_as result (spaces memory.now io.now) ≡ accessed (Search w) flip s (spaces memory.now io.now) }
{
    let got = read_on(s.source(flip), w, memory, io);
    Accessed {
        set: next_set(flip, got.step.next, s.destination(flip), s.count),
        datum: got.datum,
        upper: count_changes(got.step.upper, false, false),
    }
}

// In funnelling the byte side steps after each of its two accesses.
fn bytes_to_word(s: Set, memory: &mut [u8], io: &mut [u8]) -> Accessed
    ensures { done_as result (spaces memory.new io.new) ≡ accessed Funnel false s (spaces memory.old io.old) }
{
    let first = read_on(s.a, Width::Byte, memory, io);
    let second = read_on(first.step.next, Width::Byte, memory, io);
    let datum = unit_funnel::join(s.is_high_first(), first.datum, second.datum);
    let to = write_on(s.b, Width::Word, datum, memory, io);
    Accessed {
        set: next_set(false, second.step.next, to.next, s.count),
        datum,
        upper: count_changes(first.step.upper, second.step.upper, to.upper),
    }
}

fn word_to_bytes(s: Set, memory: &mut [u8], io: &mut [u8]) -> Accessed
    ensures { done_as result (spaces memory.new io.new) ≡ accessed Funnel true s (spaces memory.old io.old) }
{
    let high = s.is_high_first();
    let got = read_on(s.b, Width::Word, memory, io);
    let half = write_on(
        s.a,
        Width::Byte,
        unit_funnel::first_half(high, got.datum),
        memory,
        io,
    );
    let to = write_on(
        half.next,
        Width::Byte,
        unit_funnel::second_half(high, got.datum),
        memory,
        io,
    );
    Accessed {
        set: next_set(true, got.step.next, to.next, s.count),
        datum: got.datum,
        upper: count_changes(got.step.upper, half.upper, to.upper),
    }
}

// The accesses of a unit: each form apart, since each does less than one form of all.
pub fn access(moves: Moves, flip: bool, s: Set, memory: &mut [u8], io: &mut [u8]) -> Accessed
    ensures { done_as result (spaces memory.new io.new) ≡ accessed moves flip s (spaces memory.old io.old) }
{
    match moves {
        Moves::Transfer(w) => transfer(flip, s, w, memory, io),
        Moves::Search(w) => search_source(flip, s, w, memory, io),
        Moves::Funnel => {
            if flip {
                word_to_bytes(s, memory, io)
            } else {
                bytes_to_word(s, memory, io)
            }
        }
    }
}
