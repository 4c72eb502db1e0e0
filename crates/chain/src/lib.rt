// A chain's word: what it loads, and what the chain fetches after it.
#![tactic(auto)]

ghost use Rattle.std.specs.Prelude.{◌≡◌};
ghost use Rattle.word_reload.specs.declared.Entry.TheVariants.{ChainAddress};
ghost use Rattle.chain.specs.Chaining.{is_chain_address, advanced, changes_upper, next_of, load_reload, after_register, load_entry, load_of, settled_by, fetched_of, dropped_of};

use channel::Channel;
use word_reload::{Entry, Progress, Stage};

// A channel after a word of its chain, what comes next, and whether bits 23-16 of the chain address changed.
#[derive(Clone, Copy)]
pub struct Loaded {
    pub channel: Channel,
    pub next: Option<Progress>,
    pub upper: bool,
}

// A channel whose chain address has stepped, and whether bits 23-16 changed.
#[derive(Clone, Copy)]
struct Advanced {
    channel: Channel,
    upper: bool,
}

fn is_chain_address(e: Entry) -> bool
    ensures { result ≡ is_chain_address e }
{
    e == Entry::ChainAddress
}

#[tactic(auto, unfolding(crate::specs::Chaining::advanced, crate::specs::Chaining::changes_upper))]
fn advance(mut c: Channel) -> Advanced
    ensures { (result.channel ≡ advanced c) × (result.upper ≡ changes_upper c) }
{
    let step = c.chain.fetched();
    let chain = step.next;
    c.chain = chain;
    Advanced {
        channel: c,
        upper: step.upper,
    }
}

#[tactic(auto, unfolding(crate::specs::Chaining::next_of))]
fn what_next(left: u16) -> Option<Progress>
    ensures { result ≡ next_of left }
{
    if left == 0 {
        None
    } else {
        Some(Progress {
            left,
            second: false,
            upper: 0,
        })
    }
}

#[tactic(auto, unfolding(crate::specs::Chaining::load_reload))]
fn load_reload(w: u16, c: Channel) -> Loaded
    ensures { result ≡ load_reload w c }
{
    let on = advance(c);
    let channel = on.channel;
    Loaded {
        channel,
        next: what_next(w % 1024),
        upper: on.upper,
    }
}

// The old chain address is used and read until both words of the new one are there; the new one takes its place unstepped.
#[tactic(auto, unfolding(crate::specs::Chaining::load_entry))]
fn load_address(p: Progress, w: u16, mut c: Channel) -> Loaded
    ensures { result ≡ load_entry ChainAddress p w c }
{
    if p.second {
        c.chain.upper = p.upper;
        c.chain.lower = w;
        return Loaded {
            channel: c,
            next: what_next(word_reload::rest(p.left)),
            upper: false,
        };
    }
    let on = advance(c);
    let channel = on.channel;
    Loaded {
        channel,
        next: Some(Progress {
            left: p.left,
            second: true,
            upper: word_tag::kept_chain(w),
        }),
        upper: on.upper,
    }
}

// A first word of two is followed by the second, any other by the next entry.
fn after_register(e: Entry, p: Progress) -> Option<Progress>
    ensures { result ≡ after_register e p }
{
    if e.has_two() & !p.second {
        Some(Progress {
            left: p.left,
            second: true,
            upper: 0,
        })
    } else {
        what_next(word_reload::rest(p.left))
    }
}

// One call of the load, so that the compiler puts it inside the fetches' loop.
fn load_entry(e: Entry, p: Progress, w: u16, c: Channel) -> Loaded
    ensures { result ≡ load_entry e p w c }
{
    if is_chain_address(e) {
        return load_address(p, w, c);
    }
    let on = advance(c);
    Loaded {
        channel: channel_loading::load(e, p.second, w, on.channel),
        next: after_register(e, p),
        upper: on.upper,
    }
}

fn load(stage: Stage, w: u16, c: Channel) -> Loaded
    ensures { result ≡ load_of stage w c }
{
    match stage {
        Stage::Reload => load_reload(w, c),
        Stage::Entries(p) => load_entry(word_reload::next_entry(p.left), p, w, c),
    }
}

// The last fetch of a chain clears the stored change.
fn settle(next: Option<Progress>, mut c: Channel) -> Channel
    ensures { result ≡ settled_by next c }
{
    match next {
        Some(_) => c,
        None => {
            c.line.change = false;
            c
        }
    }
}

// A channel after its chain's next word; it has no chain pending any more.
#[tactic(auto, unfolding(crate::specs::Chaining::fetched_of))]
pub fn fetch(stage: Stage, w: u16, mut c: Channel) -> Loaded
    ensures { result ≡ fetched_of stage w c }
{
    c.pending = false;
    let l = load(stage, w, c);
    let next = l.next;
    Loaded {
        channel: settle(next, l.channel),
        next,
        upper: l.upper,
    }
}

// EOP with a chain fetch: the chain is dropped, CA and NAC are set.
#[tactic(auto, unfolding(crate::specs::Chaining::dropped_of))]
pub fn drop_chain(mut c: Channel) -> Channel
    ensures { result ≡ dropped_of c }
{
    c.pending = false;
    c.status.ca = true;
    c.status.nac = true;
    c
}
