// The bytes of a poke.
ghost use Rattle.std.specs.Prelude.{◌≡◌, ◌+◌, ◌==◌, ◌<◌, ◌≤◌, [], ◌∷◌, ◌++◌, length};

use std::marker::Model;

// At most 64. A request is copied, which an ArrayVec is not; the value is a list, as an ArrayVec's is.
#[derive(Clone, Copy, Debug)]
pub struct PokeBytes {
    bytes: [u8; 64],
    len: usize,
}

impl Model for PokeBytes {
    ghost use Rattle.std.specs.Prelude.{◌≡◌, ℕ, ◌-◌, ◌≤◌, ◌++◌, length, take, drop, replicate};
    ghost use Rattle.std.proofs.Common.{arith, take-append-drop, length-take-le, ◌∙◌, ap, sym};
    ghost use Rattle.arrayvec.specs.ArrayVec.{ArrayVec as Items};

    ghost Value = { Items ℕ };

    ghost view = { λ p. record { items = take p.len p.bytes } };

    // Where no byte is, there is 0: so the bytes that are there give the whole value back.
    ghost invariant = { λ p. (p.len ≤ 64) × (length p.bytes ≡ 64) × (drop p.len p.bytes ≡ replicate (64 - p.len) 0) };

    ghost inverse = { λ s. record { bytes = s.items ++ replicate (64 - length s.items) 0; len = length s.items } };

    ghost inverse_ok = { λ p h i. record {
      bytes = (ap (λ n. take p.len p.bytes ++ replicate (64 - n) 0) (length-take-le p.len p.bytes (omega (arith, h.0, h.1))) ∙ ap (λ r. take p.len p.bytes ++ r) (sym h.2) ∙ take-append-drop p.len p.bytes) i;
      len = length-take-le p.len p.bytes (omega (arith, h.0, h.1)) i;
    } };
}

impl PokeBytes {
    pub fn new() -> PokeBytes
        ensures { result.items ≡ [] }
    {
        PokeBytes {
            bytes: [0; 64],
            len: 0,
        }
    }

    pub fn is_full(&self) -> bool
        ensures value { result ≡ (length self.now.items == 64) }
        ensures fits { length self.now.items ≤ 64 }
    {
        self.len == 64
    }

    pub fn is_empty(&self) -> bool
        ensures { result ≡ (length self.now.items == 0) }
    {
        self.len == 0
    }

    pub fn push(&mut self, b: u8)
        requires { length self.old.items < 64 }
        ensures items { self.new.items ≡ self.old.items ++ b ∷ [] }
        ensures count { length self.new.items ≡ length self.old.items + 1 }
    {
        self.bytes[self.len] = b;
        self.len += 1;
    }

    pub fn as_slice(&self) -> &[u8]
        ensures items { result.now ≡ self.now.items }
        ensures fits { length result.now ≤ 64 }
    {
        &self.bytes[..self.len]
    }
}
