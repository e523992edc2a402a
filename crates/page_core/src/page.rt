ghost use Rattle.std.specs.Prelude.{◌≡◌, ℕ, ◌+◌, ◌*◌, ◌<◌, ◌≤◌, ◌↔◌, IsTrue, List, length, slice_index, EachIndex};
ghost use Rattle.definitions.specs.Bytes.{number_at, with_number, word, with_word, zero_page, filled_page, IsPage};
ghost use Rattle.definitions.specs.declared.counts.TheConstants.{WORDS_PER_PAGE};

use byteorder::{ByteOrder, LittleEndian};
use std::marker::Model;

/// A page: the 4096 bytes of a block or of a page frame. Numbers in it are little-endian.
#[derive(Drop)]
pub struct Page {
    bytes: [u8; 4096],
}

impl Model for Page {
    ghost Value = { List ℕ };

    ghost view = { λ p. p.bytes };

    ghost invariant = { λ p. IsPage p.bytes };
}

#[tactic(auto, unfolding(definitions::specs::Bytes::zero_page, definitions::specs::Bytes::filled_page, definitions::specs::Bytes::with_bytes, definitions::specs::Bytes::number_at, definitions::specs::Bytes::with_number))]
impl Page {
    /// Returns the page of zeros.
    pub fn zero() -> Page
        ensures { result ≡ zero_page }
    {
        Page { bytes: [0; 4096] }
    }

    /// Returns the page whose bytes are all `byte`.
    pub fn filled(byte: u8) -> Page
        ensures bytes { result ≡ filled_page byte }
        ensures page { IsPage result }
    {
        Page {
            bytes: [byte; 4096],
        }
    }

    pub fn from_bytes(b: &[u8; 4096]) -> Page
        ensures bytes { result ≡ b.now }
        ensures page { IsPage result }
    {
        Page { bytes: *b }
    }

    /// Replaces the page's bytes with those of a slice of 4096 bytes.
    pub fn copy_from_slice(&mut self, b: &[u8])
        requires { length b.now ≡ 4096 }
        ensures bytes { self.new ≡ b.now }
        ensures page { IsPage self.new }
    {
        self.bytes.copy_from_slice(b);
    }

    pub fn as_bytes(&self) -> &[u8; 4096]
        ensures bytes { result.now ≡ self.now }
        ensures page { IsPage self.now }
    {
        &self.bytes
    }

    /// Tells the prover that the page has 4096 bytes, which it knows only of a page that is read.
    pub fn is_page(&self)
        ensures page { IsPage self.now }
    {
        let _bytes = &self.bytes;
    }

    /// Returns the 8-byte number at offset 8i.
    pub fn word(&self, i: usize) -> u64
        requires { i < WORDS_PER_PAGE }
        ensures { result ≡ word self.now i }
    {
        LittleEndian::read_u64(&self.bytes[8 * i..])
    }

    /// Sets the 8-byte number at offset 8i, and leaves the rest.
    pub fn set_word(&mut self, i: usize, v: u64)
        requires { i < WORDS_PER_PAGE }
        ensures set { self.new ≡ with_word self.old i v }
        ensures page { IsPage self.new }
    {
        LittleEndian::write_u64(&mut self.bytes[8 * i..8 * i + 8], v);
    }

    /// Returns the 4-byte number at offset k.
    pub fn u32_at(&self, k: usize) -> u32
        requires { k ≤ 4092 }
        ensures { result ≡ number_at 4 self.now k }
    {
        LittleEndian::read_u32(&self.bytes[k..])
    }

    /// Sets the 4-byte number at offset k, and leaves the rest.
    pub fn put_u32(&mut self, k: usize, v: u32)
        requires { k ≤ 4092 }
        ensures set { self.new ≡ with_number 4 self.old k v }
        ensures page { IsPage self.new }
    {
        LittleEndian::write_u32(&mut self.bytes[k..k + 4], v);
    }

    pub fn is_zero(&self) -> bool
        ensures { IsTrue result ↔ (self.now ≡ zero_page) }
    {
        are_zeros(&self.bytes)
    }
}

fn are_zeros(bytes: &[u8]) -> bool
    ensures { IsTrue result ↔ EachIndex bytes.now (λ k. slice_index bytes.now k ≡ 0) }
{
    bytes.iter().all(|b| *b == 0)
}
