// How often a unit or a fetch changes the upper address byte (document 02, E5).
use crate::run;
use crate::run::Spaces;
use std::io;
use step::{Answer, Controller};
use word_address::Address;

// Its name, the operation, and the last address of a page that it steps from.
const OPERATIONS: [(&str, u16, u16); 20] = [
    ("word transfer", 0x00, 0xFFFE),
    ("word transfer, flipped", 0x10, 0xFFFE),
    ("word transfer-and-search", 0x04, 0xFFFE),
    ("word transfer-and-search, flipped", 0x14, 0xFFFE),
    ("word search", 0x0E, 0xFFFE),
    ("word search, flipped", 0x1E, 0xFFFE),
    ("byte transfer", 0x01, 0xFFFF),
    ("byte transfer, flipped", 0x11, 0xFFFF),
    ("byte transfer-and-search", 0x05, 0xFFFF),
    ("byte transfer-and-search, flipped", 0x15, 0xFFFF),
    ("byte search", 0x0F, 0xFFFF),
    ("byte search, flipped", 0x1F, 0xFFFF),
    ("bytes funnelled to words, 8", 0x08, 0xFFFE),
    ("bytes funnelled to words, 9", 0x09, 0xFFFE),
    ("bytes funnelled to words, C", 0x0C, 0xFFFE),
    ("bytes funnelled to words, D", 0x0D, 0xFFFE),
    ("words funnelled to bytes, 8", 0x18, 0xFFFE),
    ("words funnelled to bytes, 9", 0x19, 0xFFFE),
    ("words funnelled to bytes, C", 0x1C, 0xFFFE),
    ("words funnelled to bytes, D", 0x1D, 0xFFFE),
];

// The tag field of both addresses: the space, and which way they step.
const TAGS: [(&str, u16); 5] = [
    (": memory up", 0x0040),
    (", down", 0x0048),
    (", hold", 0x0050),
    ("; I/O up", 0x0000),
    (", down", 0x0008),
];

// Channel 1 with both current addresses at one place, its software request set, about to fetch from a chain address.
fn placed(operation: u16, at: Address, chain: Address) -> Controller {
    run::written(
        call_reset::fresh(),
        &[
            (0x1A, at.upper),
            (0x0A, at.lower),
            (0x12, at.upper),
            (0x02, at.lower),
            (0x32, 9),
            (0x52, 0x0020 | operation),
            (0x26, chain.upper),
            (0x22, chain.lower),
            (0x2E, 0x00A0),
            (0x2E, 0x0042),
            (0x38, 1),
        ],
    )
}

// What an answer tells of the upper address byte; 9 is not told.
fn changes_in(a: Answer) -> u16 {
    match a {
        Answer::Fetched(_, d) => d.upper as u16,
        Answer::Unit(_, d) => d.upper,
        _ => 9,
    }
}

// The changes of one unit, by a run and by a single step; 8 is where they differ.
fn unit_changes(operation: u16, at: Address) -> u16 {
    let u = placed(operation, at, Address { upper: 0, lower: 0 });
    let mut spaces: Spaces<2, 1> = Spaces::zeros();
    let by_run = changes_in(spaces.run(u, 2).answer);
    let mut anew: Spaces<2, 1> = Spaces::zeros();
    let fetched = anew.run(u, 1);
    let by_step = changes_in(anew.step(fetched.state).answer);
    if by_run == by_step { by_run } else { 8 }
}

fn fetch_changes(chain: Address) -> u16 {
    let at = Address {
        upper: 0x0050,
        lower: 0,
    };
    let mut spaces: Spaces<2, 1> = Spaces::zeros();
    changes_in(spaces.run(placed(0, at, chain), 1).answer)
}

// Both ends of a page and of all addresses.
fn ends(tag: u16, last: u16) -> [Address; 4] {
    [
        (tag, last),
        (0x0100 | tag, 0),
        (0xFF00 | tag, last),
        (tag, 0),
    ]
    .map(|(upper, lower)| Address { upper, lower })
}

fn say_from_the_ends(rt: &impl Print, operation: u16, tag: u16, last: u16) -> io::Result<()> {
    for at in ends(tag, last) {
        print!(rt; " {}", unit_changes(operation, at))?;
    }
    Ok(())
}

// What follows the operation's name on its line.
fn say_each_tag(rt: &impl Print, operation: u16, last: u16) -> io::Result<()> {
    for (name, tag) in TAGS {
        print!(rt; "{}", name)?;
        say_from_the_ends(rt, operation, tag, last)?;
    }
    println!(rt; "")
}

fn say_operations(rt: &impl Print) -> io::Result<()> {
    for (name, operation, last) in OPERATIONS {
        print!(rt; "{}", name)?;
        say_each_tag(rt, operation, last)?;
    }
    Ok(())
}

fn say_fetches(rt: &impl Print) -> io::Result<()> {
    print!(rt; "fetch:")?;
    for chain in ends(0, 0xFFFE) {
        print!(rt; " {}", fetch_changes(chain))?;
    }
    println!(rt; "")
}

pub fn say(rt: &impl Print) -> io::Result<()> {
    println!(rt;
        "changes of bits 23-16 from 00FFFF, 010000, FFFFFF and 000000; words, funnels and fetches from 00FFFE and FFFFFE"
    )?;
    say_operations(rt)?;
    say_fetches(rt)
}
