// The pointer: reads and writes of it.
#![tactic(auto)]

ghost use Rattle.std.specs.Prelude.{◌≡◌};
ghost use Rattle.call_pointer.specs.Pointer.{pointed};

use step::Controller;

pub fn read_pointer(u: Controller) -> u16
    ensures { result ≡ u.pointer }
{
    u.pointer
}

pub fn write_pointer(u: Controller, w: u16) -> Controller
    ensures { result ≡ pointed w u }
{
    let kept = port::kept_pointer(w);
    let mut next = u;
    next.pointer = kept;
    next
}
