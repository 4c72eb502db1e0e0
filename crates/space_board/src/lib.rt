// The board that the controller stands on: what its choice looks at besides the registers.
#![tactic(auto)]

ghost use Rattle.std.specs.Prelude.{◌≡◌};
ghost use Rattle.space.specs.Space.{spaces};
ghost use Rattle.space_board.specs.Board.{board_of};

// The lengths of the lent spaces.
#[derive(Clone, Copy)]
pub struct Board {
    pub memory: usize,
    pub io: usize,
}

pub fn lends(memory: &[u8], io: &[u8]) -> Board
    ensures { result ≡ board_of (spaces memory.now io.now) }
{
    Board {
        memory: memory.len(),
        io: io.len(),
    }
}
