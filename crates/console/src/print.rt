// What is printed, a line at a time.
use port::Which;
use std::io;
use step::Controller;
use text_print::Text;

// The line is written whole.
pub fn line(rt: &impl Print, t: Text) -> io::Result<()> {
    rt.write_all(t.with(b"\n").as_bytes())
}

fn channel_state(rt: &impl Print, w: Which, u: Controller) -> io::Result<()> {
    line(rt, console_state::current(w, u))?;
    line(rt, console_state::base(w, u))?;
    line(rt, console_state::compared(w, u))?;
    line(rt, console_state::modes(w, u))?;
    line(rt, console_state::status(w, u))
}

pub fn state(rt: &impl Print, u: Controller) -> io::Result<()> {
    line(rt, console_state::controller(u))?;
    channel_state(rt, Which::One, u)?;
    channel_state(rt, Which::Two, u)
}

pub fn help(rt: &impl Print) -> io::Result<()> {
    for n in 0..17 {
        line(rt, console_message::help(n))?;
    }
    Ok(())
}

pub fn cannot_open(rt: &impl Print, name: &[u8]) -> io::Result<()> {
    rt.write_all(b"error cannot open ")?;
    rt.write_all(name)?;
    rt.write_all(b"\n")
}
