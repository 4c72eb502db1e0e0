// The bench: the controller, the two spaces that are lent to it, and the host's calls.
ghost use Rattle.std.specs.Prelude.{◌≡◌, IfOk, OnOk, replicate};
ghost use Rattle.std.specs.Borrow.{sem};
ghost use Rattle.space.specs.Space.{spaces};
ghost use Rattle.call_pointer.specs.Pointer.{pointed};
ghost use Rattle.space_board.specs.Board.{board_of};
ghost use Rattle.text_print.specs.Text.{written};
ghost use Rattle.call_write.specs.Writing.{write_of};
ghost use Rattle.call_reset.specs.Reset.{fresh_of};
ghost use Rattle.call_line.specs.Lines.{lined_at};
ghost use Rattle.call_acknowledge.specs.Acknowledge.{acknowledge_of};
ghost use Rattle.console.specs.Calls.{call_of, leaves, advance_of, read_line, why_line};
ghost use Rattle.console.specs.Lending.{bytes_in, LendsSpace};

use crate::print;
use console_line::{Advance, LentSpace, RegisterCall, Request};
use std::alloc::AllocError;
use std::io;
use step::Controller;
use text_print::Text;

// The most bytes that are lent.
const MEMORY: usize = 1048576;

const IO: usize = 65536;

// The controller, and the bytes of each space that are lent.
#[derive(Drop)]
pub struct Bench {
    controller: Controller,
    memory: Vec<u8>,
    io: Vec<u8>,
}

// ---- the spaces

// What is lent anew is 00; there is room for the most from the start on.
fn lend(s: &mut Vec<u8>, n: usize) -> Result<(), AllocError>
    ensures { OnOk result (s.new.items ≡ replicate n 0) }
{
    s.clear();
    s.resize(n, 0)
}

// How many of the bytes have a place in the space.
fn store(s: &mut [u8], at: usize, bytes: &[u8]) -> usize {
    let from = at.min(s.len());
    let n = bytes.len().min(s.len() - from);
    s[from..from + n].copy_from_slice(&bytes[..n]);
    n
}

fn show(rt: &impl Print, s: &[u8], at: usize, n: usize) -> io::Result<()> {
    let from = at.min(s.len());
    let shown = n.min(s.len() - from);
    for (i, row) in s[from..from + shown].chunks(16).enumerate() {
        print::line(rt, console_message::row(from + 16 * i, row))?;
    }
    Ok(())
}

impl Bench {
    pub fn new(rt: &impl AllocGlobal) -> Result<Bench, AllocError>
        ensures { IfOk result (λ b. b.controller ≡ fresh_of) }
    {
        let mut memory = Vec::with_capacity(rt.alloc(), MEMORY)?;
        let mut io = Vec::with_capacity(rt.alloc(), IO)?;
        lend(&mut memory, 65536)?;
        lend(&mut io, 4096)?;
        Ok(Bench {
            controller: call_reset::fresh(),
            memory,
            io,
        })
    }

    // ---- the calls

    // Each gives the line that tells its answer, and leaves the controller as the model's definitions say.

    fn point(&mut self, w: u16)
        ensures { self.new ≡ record self.old { controller = pointed w self.old.controller } }
    {
        self.controller = call_pointer::write_pointer(self.controller, w);
    }

    fn write(&mut self, w: u16) -> Text
        ensures { self.new ≡ record self.old { controller = (write_of w self.old.controller).state } }
    {
        let written = call_write::write(w, self.controller);
        self.controller = written.state;
        console_answer::write(written.answer)
    }

    fn read(&self) -> Text
        ensures { written result ≡ read_line self.now.controller }
    {
        console_answer::read(call_read::read(self.controller))
    }

    fn line(&mut self, c: u8, active: bool) -> Text
        ensures { self.new ≡ record self.old { controller = (lined_at c active self.old.controller).state } }
    {
        let lined = call_line::line(c as u32, active, self.controller);
        self.controller = lined.state;
        console_answer::line(c, active, lined.answer)
    }

    fn acknowledge(&mut self) -> Text
        ensures { self.new ≡ record self.old { controller = (acknowledge_of self.old.controller).state } }
    {
        let given = call_acknowledge::acknowledge(self.controller);
        self.controller = given.state;
        console_answer::acknowledge(given.answer)
    }

    #[tactic(auto, unfolding(crate::specs::Calls::call_of))]
    fn make(&mut self, call: RegisterCall) -> Text
        ensures { self.new ≡ record self.old { controller = call_of call self.old.controller } }
    {
        match call {
            RegisterCall::Reset => {
                self.controller = call_reset::reset(self.controller);
                console_message::reset()
            }
            RegisterCall::WritePointer(w) => {
                self.point(w);
                console_message::pointer(self.controller.pointer)
            }
            RegisterCall::ReadPointer => console_message::pointer(self.controller.pointer),
            RegisterCall::Write(w) => self.write(w),
            RegisterCall::Read => self.read(),
            RegisterCall::Set(p, w) => {
                self.point(p);
                self.write(w)
            }
            RegisterCall::Get(p) => {
                self.point(p);
                self.read()
            }
            RegisterCall::Line(c, active) => self.line(c, active),
            RegisterCall::Acknowledge => self.acknowledge(),
        }
    }

    // So are the controller and both spaces.
    #[tactic(auto, unfolding(crate::specs::Calls::advance_of))]
    fn advance(&mut self, advance: Advance) -> Text
        ensures { leaves self.new.controller (spaces self.new.memory.items self.new.io.items) ≡ advance_of advance self.old.controller (spaces self.old.memory.items self.old.io.items) }
    {
        match advance {
            Advance::Step(eop) => {
                let stepped = self.controller.step(eop, &mut self.memory, &mut self.io);
                self.controller = stepped.state;
                console_answer::step(stepped.answer)
            }
            Advance::Run(n) => {
                let ran = call_run::run(self.controller, n, &mut self.memory, &mut self.io);
                self.controller = ran.state;
                console_answer::run(ran.steps, ran.answer)
            }
        }
    }

    // A look: nothing changes.
    fn why(&self, c: u8) -> Text
        ensures { written result ≡ why_line c (board_of (spaces self.now.memory.items self.now.io.items)) self.now.controller }
    {
        let board = space_board::lends(&self.memory, &self.io);
        console_answer::why(c, standstill::why(c as u32, board, self.controller))
    }

    // ---- a line

    fn space(&self, space: LentSpace) -> &Vec<u8>
        ensures { result.now ≡ bytes_in space self.now }
    {
        match space {
            LentSpace::Memory => &self.memory,
            LentSpace::Io => &self.io,
        }
    }

    fn space_mut(&mut self, space: LentSpace) -> &mut Vec<u8>
        ensures value { result.now ≡ bytes_in space self.old }
        ensures* writes_back { sem 𝓛 (LendsSpace space self.entry result) }
    {
        match space {
            LentSpace::Memory => &mut self.memory,
            LentSpace::Io => &mut self.io,
        }
    }

    // What a line asks is carried out and told.
    pub fn obey(&mut self, rt: &impl Print, request: Request) -> io::Result<()> {
        match request {
            Request::Lend(space, n) => {
                print::line(rt, console_message::lent(space, n))?;
                lend(self.space_mut(space), n as usize)?;
                Ok(())
            }
            Request::Make(call) => print::line(rt, self.make(call)),
            Request::Advance(advance) => print::line(rt, self.advance(advance)),
            Request::Why(c) => print::line(rt, self.why(c)),
            Request::Poke(space, at, bytes) => {
                let n = store(self.space_mut(space), at as usize, bytes.as_slice());
                print::line(rt, console_message::poked(n))
            }
            Request::Peek(space, at, n) => show(rt, self.space(space), at as usize, n as usize),
            Request::State => print::state(rt, self.controller),
            Request::Help => print::help(rt),
        }
    }
}
