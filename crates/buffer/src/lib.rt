#![tactic(auto)]
// The first bytes of an array, and room for more.
ghost use Rattle.std.specs.Prelude.{◌≡◌, ◌∷◌, [], ◌+◌, ◌≤◌, ◌↔◌, length, IsTrue};
ghost use Rattle.buffer.specs.Appending.{Puts};

use std::marker::Model;

// At most N bytes.
#[derive(Clone, Copy)]
pub struct Buffer<const N: usize> {
    bytes: [u8; N],
    len: usize,
}

// Clauses see the bytes that were put. The room after them is zeros, so that they give the fields back.
impl<const N: usize> Model for Buffer<N> {
    ghost use Rattle.std.specs.Prelude.{◌≡◌, ◌++◌, ◌-◌, ◌≤◌, List, ℕ, length, take, drop, replicate};
    ghost use Rattle.std.proofs.Common.{length-take-le};
    ghost use Rattle.buffer.specs.Room.{whole};

    ghost Value = { List ℕ };

    ghost view = { λ b. take b.len b.bytes };

    ghost inverse = { λ s. record { bytes = s ++ replicate (N - length s) 0; len = length s } };

    ghost inverse_ok = { λ b h i. record {
      bytes = whole N b.len b.bytes h.0 h.1 i;
      len = length-take-le b.len b.bytes h.0 i;
    } };

    ghost invariant = { λ b. (b.len ≤ length b.bytes) × (drop b.len b.bytes ≡ replicate (N - b.len) 0) };
}

impl<const N: usize> Buffer<N> {
    // No bytes.
    pub fn new() -> Self
        ensures { result ≡ [] }
    {
        Buffer {
            bytes: [0; N],
            len: 0,
        }
    }

    pub fn as_bytes(&self) -> &[u8]
        ensures same { result.now ≡ self.now }
        ensures within { length result.now ≤ N }
    {
        &self.bytes[..self.len]
    }

    // How many bytes more there is room for.
    pub fn room(&self) -> usize
        ensures { length self.now + result ≡ N }
    {
        N - self.len
    }

    pub fn is_full(&self) -> bool
        ensures { IsTrue result ↔ (length self.now ≡ N) }
    {
        self.len == N
    }

    pub fn clear(&mut self)
        ensures { self.new ≡ [] }
    {
        self.bytes[..self.len].fill(0);
        self.len = 0;
    }

    // Puts a byte after the others, where there is room for it.
    pub fn push(&mut self, byte: u8)
        ensures { Puts N (byte ∷ []) self.old self.new }
    {
        if self.is_full() {
            return;
        }
        self.bytes[self.len] = byte;
        self.len += 1;
    }

    // Puts the bytes of src after the others, where there is room for them.
    pub fn put(&mut self, src: &[u8])
        ensures { Puts N src.now self.old self.new }
    {
        if src.len() > self.room() {
            return;
        }
        let end = self.len + src.len();
        let all = &mut self.bytes[..];
        all[self.len..end].copy_from_slice(src);
        self.len = end;
    }
}
