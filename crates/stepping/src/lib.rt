// How an address steps.
#![tactic(auto)]

ghost use Rattle.std.specs.Prelude.{◌≡◌, ◌≤◌, ◌<◌};
ghost use Rattle.stepping.specs.Stepping.{step_size, direction, moved, rise};

use space::Width;

// By how much an address steps: memory bytes by 1, words and all I/O by 2.
pub fn step_size(memory: bool, w: Width) -> u32
    ensures { (result ≡ step_size memory w) × (result ≤ 2) }
{
    match w {
        Width::Byte => if memory { 1 } else { 2 },
        Width::Word => 2,
    }
}

// A number and no enum of directions, though the definition has one: tried, and a transfer takes 161 instructions in a run for 139.
// By how much an address rises at a step of its field: a step down is a rise by the rest of a whole turn.
fn rise_of(field: u16, by: u32) -> u32
    requires { by ≤ 2 }
    ensures { (result ≡ rise 16777216 (direction field) by) × (result ≤ 16777216) }
{
    if field == 0 {
        return by;
    }
    if field == 1 { 16777216 - by } else { 0 }
}

// A 24-bit address, one step on by its step field: 0 up, 1 down, 2 and 3 hold.
pub fn stepped(a: u32, field: u16, by: u32) -> u32
    requires { (a < 16777216) × (by ≤ 2) }
    ensures { result ≡ moved 16777216 (direction field) by a }
{
    (a + rise_of(field, by)) % 16777216
}
