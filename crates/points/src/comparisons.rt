// What the status tells of a comparison, of each pair of a pattern and a datum under each match control (document 02, E2).
use crate::run;
use crate::run::Spaces;
use std::io;
use step::Controller;

// Which halves of the datum match the pattern; the pattern; the datum.
type Pair = (&'static str, u16, u16);

// Its name, the operation, and the pairs that it compares.
type Comparison = (&'static str, u16, [Pair; 4]);

const WORDS: [Pair; 4] = [
    (": both", 0x1234, 0x1234),
    ("; high", 0x1234, 0x1256),
    ("; low", 0x1234, 0x5634),
    ("; neither", 0x1234, 0x5678),
];

// The same of bytes, each the high half of its datum.
const BYTES: [Pair; 4] = [
    (": both", 0x1212, 0x1200),
    ("; high", 0x1234, 0x1200),
    ("; low", 0x1234, 0x3400),
    ("; neither", 0x1234, 0x5600),
];

const COMPARISONS: [Comparison; 8] = [
    ("word transfer-and-search", 0x04, WORDS),
    ("bytes funnelled to words, C", 0x0C, WORDS),
    ("words funnelled to bytes, C", 0x1C, WORDS),
    ("bytes funnelled to words, D", 0x0D, WORDS),
    ("words funnelled to bytes, D", 0x1D, WORDS),
    ("word search", 0x0E, WORDS),
    ("byte transfer-and-search", 0x05, BYTES),
    ("byte search", 0x0F, BYTES),
];

// The status bits that a comparison changes.
const FLAGS: [(u16, &str); 3] = [(0x10, "MCH"), (0x08, "MCL"), (0x04, "MC")];

fn status_of(u: Controller) -> u16 {
    call_read::read(call_pointer::write_pointer(u, 0x2E)).unwrap_or(0)
}

// The status after a chain and one unit, count 2, over a datum that stands on both sides, so that either may be the source.
fn status_after(operation: u16, control: u16, pattern: u16, datum: u16) -> u16 {
    let mut spaces: Spaces<64, 1> = Spaces::zeros();
    let table = [
        0x038A,
        0x0040,
        0x0030,
        0x0040,
        0x0038,
        0x0002,
        pattern,
        0x0000,
        0x0010 | control,
        0x0020 | operation,
    ];
    spaces.store(true, 0, &table);
    spaces.store(true, 0x30, &[datum, 0, 0, 0, datum]);
    status_of(spaces.run(run::started(1, 0), 11).state)
}

fn say_told(rt: &impl Print, status: u16) -> io::Result<()> {
    for (bit, name) in FLAGS {
        if status & bit != 0 {
            print!(rt; " {}", name)?;
        }
    }
    Ok(())
}

// A line: what is told of each pair under one match control.
fn say_line(rt: &impl Print, comparison: Comparison, control: u16) -> io::Result<()> {
    let (name, operation, pairs) = comparison;
    print!(rt; "{}, match control {}", name, control)?;
    for (halves, pattern, datum) in pairs {
        print!(rt; "{}", halves)?;
        say_told(rt, status_after(operation, control, pattern, datum))?;
    }
    println!(rt; "")
}

fn say_each_control(rt: &impl Print, comparison: Comparison) -> io::Result<()> {
    for control in 0..4 {
        say_line(rt, comparison, control)?;
    }
    Ok(())
}

pub fn say(rt: &impl Print) -> io::Result<()> {
    for comparison in COMPARISONS {
        say_each_control(rt, comparison)?;
    }
    Ok(())
}
