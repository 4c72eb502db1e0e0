// The type stands apart from its words: a ghost field imports all that its file does, and these name the type.
ghost use Rattle.std.specs.Prelude.{◌≤◌, length};

use arrayvec::ArrayVec;

#[derive(Drop)]
pub struct Text {
    pub(crate) bytes: ArrayVec<u8, 96>,
    ghost fits: { length bytes.items ≤ 96 },
}
