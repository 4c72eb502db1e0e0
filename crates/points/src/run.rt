// The two spaces, and the host's calls on a controller that works on them.
use port::Which;
use refusal::Refusal;
use space::Width;
use step::{Answer, Controller, Done, Ran};

#[derive(Drop)]
pub struct Spaces<const MEMORY: usize, const IO: usize> {
    memory: [u8; MEMORY],
    io: [u8; IO],
}

impl<const MEMORY: usize, const IO: usize> Spaces<MEMORY, IO> {
    pub fn zeros() -> Spaces<MEMORY, IO> {
        Spaces {
            memory: [0; MEMORY],
            io: [0; IO],
        }
    }

    // Words from an address of a space on.
    pub fn store(&mut self, in_memory: bool, from: u32, words: &[u16]) {
        let mut at = from;
        for w in words {
            let place = space::place_at(in_memory, at);
            space::write(&mut self.memory, &mut self.io, place, Width::Word, *w);
            at = at.wrapping_add(2);
        }
    }

    pub fn has(&self, in_memory: bool, from: u32, words: &[u16]) -> bool {
        let mut at = from;
        for w in words {
            let place = space::place_at(in_memory, at);
            if space::read(&self.memory, &self.io, place, Width::Word) != *w {
                return false;
            }
            at = at.wrapping_add(2);
        }
        true
    }

    pub fn run(&mut self, u: Controller, budget: u32) -> Ran {
        call_run::run(u, budget, &mut self.memory, &mut self.io)
    }

    pub fn step(&mut self, u: Controller) -> Done<Answer> {
        u.step(false, &mut self.memory, &mut self.io)
    }
}

pub fn write_at(u: Controller, pointer: u16, w: u16) -> Done<Result<(), Refusal>> {
    call_write::write(w, call_pointer::write_pointer(u, pointer))
}

// The controller after words are written, each to its port.
pub fn written(mut u: Controller, writes: &[(u16, u16)]) -> Controller {
    for (pointer, w) in writes {
        u = write_at(u, *pointer, *w).state;
    }
    u
}

// Figure 23 with its own numbers: master mode, chain upper and lower, Start Chain.
pub fn started(master: u16, lower: u16) -> Controller {
    written(
        call_reset::fresh(),
        &[
            (0x38, master),
            (0x26, 0x0000),
            (0x22, lower),
            (0x2C, 0x00A0),
        ],
    )
}
