// What an operation does, a row for each code.
#![tactic(auto)]

ghost use Rattle.std.specs.Prelude.{◌≡◌};
ghost use Rattle.word_operation.specs.Operation.{moving, comparing, not_carried, operation_at, datum_width};

use space::Width;

// What a unit does with its source and its destination. In funnelling A is the byte side and B the word side.
#[derive(Clone, Copy)]
pub enum Moves {
    Transfer(Width),
    Search(Width),
    Funnel,
}

// A flag and no Option: `unit/Unit: worked` says what a unit of any mode does, and demand 2 speaks of it.
#[derive(Clone, Copy)]
pub struct Operation {
    pub carried: bool,
    pub compares: bool,
    pub moves: Moves,
}

fn moving(moves: Moves) -> Operation
    ensures { result ≡ moving moves }
{
    Operation {
        carried: true,
        compares: false,
        moves,
    }
}

fn comparing(moves: Moves) -> Operation
    ensures { result ≡ comparing moves }
{
    Operation {
        carried: true,
        compares: true,
        moves,
    }
}

fn not_carried() -> Operation
    ensures { result ≡ not_carried }
{
    Operation {
        carried: false,
        compares: false,
        moves: Moves::Transfer(Width::Byte),
    }
}

#[tactic(auto, using(facts::proofs::Look::look_none), unfolding(facts::specs::Look::look))]
pub fn operation_of(code: u16) -> Operation
    ensures { result ≡ operation_at code }
{
    match code {
        0 => moving(Moves::Transfer(Width::Word)),
        1 => moving(Moves::Transfer(Width::Byte)),
        2 => not_carried(),
        3 => not_carried(),
        4 => comparing(Moves::Transfer(Width::Word)),
        5 => comparing(Moves::Transfer(Width::Byte)),
        6 => not_carried(),
        7 => not_carried(),
        8 => moving(Moves::Funnel),
        9 => moving(Moves::Funnel),
        10 => not_carried(),
        11 => not_carried(),
        12 => comparing(Moves::Funnel),
        13 => comparing(Moves::Funnel),
        14 => comparing(Moves::Search(Width::Word)),
        15 => comparing(Moves::Search(Width::Byte)),
        _ => not_carried(),
    }
}

impl Moves {
    // In funnelling the datum is the word.
    pub fn datum_width(self) -> Width
        ensures { result ≡ datum_width self }
    {
        match self {
            Moves::Transfer(w) => w,
            Moves::Search(w) => w,
            Moves::Funnel => Width::Word,
        }
    }
}
