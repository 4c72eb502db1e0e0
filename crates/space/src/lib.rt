// The two lent byte spaces, and their addresses, kept apart by type.
#![tactic(auto)]

ghost use Rattle.std.specs.Prelude.{◌≡◌, get_or, set};
ghost use Rattle.space.specs.Space.{spaces, place_at, value_in, with_value, read_at, written};

// A memory address never stands for an I/O address.
#[derive(Clone, Copy)]
pub struct MemoryAddress(pub u32);

#[derive(Clone, Copy)]
pub struct IoAddress(pub u32);

#[derive(Clone, Copy)]
pub enum Place {
    Memory(MemoryAddress),
    Io(IoAddress),
}

#[derive(Clone, Copy)]
pub enum Width {
    Byte,
    Word,
}

// The place of an address: memory or I/O.
pub fn place_at(memory: bool, a: u32) -> Place
    ensures { result ≡ place_at memory a }
{
    if memory {
        Place::Memory(MemoryAddress(a))
    } else {
        Place::Io(IoAddress(a))
    }
}

// A byte beyond the end reads FFh.
fn byte_at(s: &[u8], i: usize) -> u8
    ensures { result ≡ get_or s.now i 255 }
{
    if i < s.len() { s[i] } else { 255 }
}

// A write beyond the end is lost. By index: a slice's `get_mut` tells a proof the length alone, and no element.
fn put_byte(s: &mut [u8], i: usize, v: u8)
    ensures { s.new ≡ set s.old i v }
{
    if i < s.len() {
        s[i] = v;
    }
}

fn value_at(s: &[u8], a: u32, w: Width) -> u16
    ensures { result ≡ value_in w s.now a }
{
    let i = a as usize;
    let first = byte_at(s, i) as u16;
    match w {
        Width::Byte => first,
        Width::Word => first * 256 + (byte_at(s, i + 1) as u16),
    }
}

fn put_value(s: &mut [u8], a: u32, w: Width, v: u16)
    ensures { s.new ≡ with_value w s.old a v }
{
    let i = a as usize;
    let low = (v % 256) as u8;
    match w {
        Width::Byte => put_byte(s, i, low),
        Width::Word => {
            put_byte(s, i, (v / 256) as u8);
            put_byte(s, i + 1, low);
        }
    }
}

// The two slices go side by side all the way up. Tried as one struct of both, lent as `&mut`: it proves, but in a run a transfer takes
// 142.2 instructions for 135.2, a pair 248.1 for 239.1.
// The datum of either width at a place.
pub fn read(memory: &[u8], io: &[u8], p: Place, w: Width) -> u16
    ensures { result ≡ read_at w (spaces memory.now io.now) p }
{
    match p {
        Place::Memory(a) => value_at(memory, a.0, w),
        Place::Io(a) => value_at(io, a.0, w),
    }
}

// The datum of either width at a memory address: chaining reads memory.
pub fn read_memory(memory: &[u8], a: MemoryAddress, w: Width) -> u16
    ensures { result ≡ value_in w memory.now a.0 }
{
    value_at(memory, a.0, w)
}

// A datum of either width to a place.
pub fn write(memory: &mut [u8], io: &mut [u8], p: Place, w: Width, v: u16)
    ensures { spaces memory.new io.new ≡ written w (spaces memory.old io.old) p v }
{
    match p {
        Place::Memory(a) => put_value(memory, a.0, w, v),
        Place::Io(a) => put_value(io, a.0, w, v),
    }
}
