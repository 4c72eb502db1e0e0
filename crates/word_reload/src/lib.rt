// The reload word: which entries a chain table has, in which order they come, and how many words they are.
#![tactic(auto)]

ghost use Rattle.std.specs.Prelude.{◌≡◌};
ghost use Rattle.word_reload.specs.Reload.{next_of, entry_of, rest_of, words_of, is_pair};

// Nothing stays a case: a chain with no entry left, as a host's 72 words may say, still fetches, and loads it by the same arms.
#[derive(Clone, Copy, Debug, PartialEq, Eq)]
pub enum Entry {
    CurrentA,
    CurrentB,
    CurrentCount,
    BaseA,
    BaseB,
    BaseCount,
    PatternAndMask,
    Vector,
    Mode,
    ChainAddress,
    Nothing,
}

// What is left of a chain's table, whether the second word of its next entry comes, and a new chain upper that waits for its lower: a word of the
// host's state each (the C interface), whatever the others hold.
#[derive(Clone, Copy, Debug, PartialEq, Eq)]
pub struct Progress {
    pub left: u16,
    pub second: bool,
    pub upper: u16,
}

// The word of a chain that is fetched next: two kinds, so no Option, whose None would not say that the reload word comes.
#[derive(Clone, Copy, Debug, PartialEq, Eq)]
pub enum Stage {
    Reload,
    Entries(Progress),
}

// The place of the next entry, 0 for that of bit 9 to 9 for that of bit 0; 10 where none is left.
fn next_place(left: u16) -> u32
    ensures { result ≡ next_of left }
{
    u16::leading_zeros(left & 0x3FF) - 6
}

// The entry that comes next of those that are left.
#[tactic(auto, using(facts::proofs::Look::look_none), unfolding(crate::specs::Reload::entry_of, facts::specs::Look::look))]
pub fn next_entry(left: u16) -> Entry
    ensures { result ≡ entry_of left }
{
    let place = next_place(left);
    match place {
        0 => Entry::CurrentA,
        1 => Entry::CurrentB,
        2 => Entry::CurrentCount,
        3 => Entry::BaseA,
        4 => Entry::BaseB,
        5 => Entry::BaseCount,
        6 => Entry::PatternAndMask,
        7 => Entry::Vector,
        8 => Entry::Mode,
        9 => Entry::ChainAddress,
        _ => Entry::Nothing,
    }
}

// What is left once the next entry is taken.
#[tactic(auto, using(crate::proofs::Laws::lows, crate::proofs::Laws::next_le), unfolding(crate::specs::Reload::rest_of))]
pub fn rest(left: u16) -> u16
    ensures { result ≡ rest_of left }
{
    let place = next_place(left);
    left & (0x1FF >> place)
}

// The words of a chain table, the reload word among them: one for each entry, and one more for each that has two.
pub fn words(reload: u16) -> u32
    ensures { result ≡ words_of reload }
{
    1 + u16::count_ones(reload & 0x3FF) + u16::count_ones(reload & 0x36B)
}

impl Entry {
    // Two words, the upper before the lower.
    pub fn has_two(self) -> bool
        ensures { result ≡ is_pair self }
    {
        matches!(
            self,
            Entry::CurrentA
                | Entry::CurrentB
                | Entry::BaseA
                | Entry::BaseB
                | Entry::PatternAndMask
                | Entry::Mode
                | Entry::ChainAddress
        )
    }
}
