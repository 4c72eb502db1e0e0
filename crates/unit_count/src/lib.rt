// What a unit does with its count.
#![tactic(auto)]

ghost use Rattle.std.specs.Prelude.{◌≡◌};
ghost use Rattle.unit_count.specs.Count.{fewer, terminal};

// The count falls by one modulo 65,536.
pub fn one_fewer(count: u16) -> u16
    ensures { result ≡ fewer count }
{
    std::num::wrapping_sub_u16(count, 1)
}

// TC is reaching 0.
pub fn is_terminal(count: u16) -> bool
    ensures { result ≡ terminal count }
{
    count == 0
}
