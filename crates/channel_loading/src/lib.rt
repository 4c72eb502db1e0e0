// One word to a register of a channel.
#![tactic(auto)]

ghost use Rattle.std.specs.Prelude.{◌≡◌};
ghost use Rattle.channel_loading.specs.Loading.{address_with, compare_with, mode_with, chain_with, loaded};

use channel::Channel;
use word_address::Address;
use word_reload::Entry;

// An address register's words are loaded upper before lower.
pub fn load_address(second: bool, w: u16, a: &mut Address)
    ensures { a.new ≡ address_with second w a.old }
{
    if second {
        a.lower = w;
    } else {
        a.upper = word_tag::kept_tag(w);
    }
}

// Three more and no one of them: each keeps other bits of its first word.
pub fn load_compare(second: bool, w: u16, c: &mut Channel)
    ensures { c.new ≡ compare_with second w c.old }
{
    if second {
        c.mask = w;
    } else {
        c.pattern = w;
    }
}

pub fn load_mode(second: bool, w: u16, c: &mut Channel)
    ensures { c.new ≡ mode_with second w c.old }
{
    if second {
        c.mode.low = w;
    } else {
        c.mode.high = word_mode::kept_high(w);
    }
}

pub fn load_chain(second: bool, w: u16, c: &mut Channel)
    ensures { c.new ≡ chain_with second w c.old }
{
    if second {
        c.chain.lower = w;
    } else {
        c.chain.upper = word_tag::kept_chain(w);
    }
}

// The first or only word, or the second, of an entry. One variable goes through the arms: where several meet, the compiler keeps each.
#[tactic(auto, unfolding(crate::specs::Loading::loaded))]
pub fn load(e: Entry, second: bool, w: u16, mut c: Channel) -> Channel
    ensures { result ≡ loaded e second w c }
{
    match e {
        Entry::CurrentA => load_address(second, w, &mut c.current.a),
        Entry::CurrentB => load_address(second, w, &mut c.current.b),
        Entry::CurrentCount => c.current.count = w,
        Entry::BaseA => load_address(second, w, &mut c.base.a),
        Entry::BaseB => load_address(second, w, &mut c.base.b),
        Entry::BaseCount => c.base.count = w,
        Entry::PatternAndMask => load_compare(second, w, &mut c),
        Entry::Vector => c.interrupt.vector = (w % 256) as u8,
        Entry::Mode => load_mode(second, w, &mut c),
        Entry::ChainAddress => load_chain(second, w, &mut c),
        Entry::Nothing => {}
    }
    c
}
