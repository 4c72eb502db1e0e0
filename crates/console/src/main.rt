// The console: reads lines from the file that its first argument names, or from standard input, makes the host calls that they name, and prints what each answers.
#![tactic(auto)]

mod bench;
mod print;

use arrayvec::ArrayVec;
use bench::Bench;
use console_line::{LineError, Request};
use std::alloc::AllocError;
use std::env::FillError;
use std::fs::File;
use std::io;
use std::io::Read;
use std::rt::{Env, Files};

// The bench, how many lines were read, and the bytes of the next: one more than the longest line has, so that a full one is too long.
#[derive(Drop)]
struct Session {
    bench: Bench,
    lines: u64,
    line: ArrayVec<u8, 256>,
}

fn tell(rt: &impl Print, error: LineError, number: u64) -> io::Result<()> {
    match error {
        LineError::NotUnderstood => print::line(rt, console_message::not_understood(number)),
        LineError::TooLarge => print::line(rt, console_message::too_large(number)),
    }
}

impl Session {
    fn new(rt: &impl AllocGlobal) -> Result<Session, AllocError> {
        Ok(Session {
            bench: Bench::new(rt)?,
            lines: 0,
            line: ArrayVec::new(),
        })
    }

    fn request(&self) -> Result<Option<Request>, LineError> {
        if self.line.is_full() {
            return Err(LineError::NotUnderstood);
        }
        console_line::read_line(self.line.as_slice())
    }

    fn end_line(&mut self, rt: &impl Print) -> io::Result<()> {
        self.lines = self.lines.wrapping_add(1);
        let request = self.request();
        self.line.clear();
        match request {
            Ok(Some(request)) => self.bench.obey(rt, request),
            Ok(None) => Ok(()),
            Err(error) => tell(rt, error, self.lines),
        }
    }

    fn take_bytes(&mut self, rt: &impl Print, read: &[u8]) -> io::Result<()> {
        for b in read {
            if *b == b'\n' {
                self.end_line(rt)?;
            } else if !self.line.is_full() {
                self.line.push(*b);
            }
        }
        Ok(())
    }

    // A proved loop has to end, and nothing says that the input does: the turns are more than any run uses up.
    fn take_all(&mut self, rt: &impl Print, input: &mut impl Read) -> io::Result<()> {
        for _ in 0..u64::MAX {
            let mut buf = [0u8; 4096];
            let n = input.read(&mut buf)?;
            if n == 0 {
                break;
            }
            self.take_bytes(rt, &buf[..n])?;
        }
        Ok(())
    }
}

fn serve(rt: &(impl Print + AllocGlobal), input: &mut impl Read) -> io::Result<()> {
    let mut session = Session::new(rt)?;
    session.take_all(rt, input)?;
    // The last line may lack its end.
    if !session.line.is_empty() {
        session.end_line(rt)?;
    }
    Ok(())
}

// A name that is no text cannot be opened.
fn open<R: Files>(rt: &R, name: &[u8]) -> Option<R::File> {
    let path = str::from_utf8(name).ok()?;
    File::open(rt, path).ok()
}

fn serve_named(rt: &HostRuntime, name: &[u8]) -> io::Result<()> {
    let Some(mut file) = open(rt, name) else {
        return print::cannot_open(rt, name);
    };
    serve(rt, &mut file)
}

fn main(rt: HostRuntime) -> io::Result<()> {
    // As long as Linux lets an argument be.
    let mut name = vec![in rt.alloc(); 0u8; 131072]?;
    match rt.arg(1, &mut name) {
        Ok(n) => serve_named(&rt, &name[..n]),
        Err(FillError::TooLong) => serve_named(&rt, b""),
        Err(FillError::NotPresent) => serve(&rt, &mut rt.reader()),
    }
}
