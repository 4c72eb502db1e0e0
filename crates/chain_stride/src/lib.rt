// Words of a chain that are fetched one after another.
#![tactic(auto)]

ghost use Rattle.std.specs.Prelude.{◌≡◌, ◌-◌};
ghost use Rattle.chain_stride.specs.Fetches.{fetched_as, fetches_of};

use channel::Channel;
use space::{MemoryAddress, Width};
use word_reload::{Progress, Stage};

// The channel after the last word, what comes next, whether the last changed bits 23-16, and how many words there were.
#[derive(Clone, Copy)]
pub struct Fetched {
    pub channel: Channel,
    pub next: Option<Progress>,
    pub upper: bool,
    pub words: u32,
}

// A word, and those that follow it, up to a limit.
pub fn fetch_on(first: Stage, limit: u32, c: Channel, memory: &[u8]) -> Fetched
    ensures { fetched_as result ≡ fetches_of memory.now (limit - 1) 0 first c }
{
    let mut channel = c;
    let mut stage = first;
    let mut next = None;
    let mut upper = false;
    let mut words: u32 = 0;
    let mut going = true;
    // No for: a word is fetched whatever the limit, and the count is the answer.
    while going {
        let word = space::read_memory(memory, MemoryAddress(channel.chain.number()), Width::Word);
        let l = chain::fetch(stage, word, channel);
        channel = l.channel;
        next = l.next;
        upper = l.upper;
        words += 1;
        match next {
            Some(p) => {
                stage = Stage::Entries(p);
                going = words < limit;
            }
            None => {
                going = false;
            }
        }
    }
    Fetched {
        channel,
        next,
        upper,
        words,
    }
}
