//! Sets of small numbers, one bit each.

ghost use Rattle.std.specs.Prelude.{◌≡◌, ◌==◌, ℕ, ◌/◌, ◌<◌, ◌↔◌, ◌⊎◌, IsTrue, IfOk, length, false};
ghost use Rattle.own_flow.specs.Words.{Has, bit_of, room};

use std::alloc::{AllocError, Global};
use std::marker::Model;

/// A set of numbers below 64 times the number of its words.
#[derive(Debug, Drop)]
pub struct Bits {
    words: Vec<u64>,
}

impl Model for Bits {
    ghost use Rattle.std.specs.Prelude.{List, ℕ};

    ghost Value = { List ℕ };

    ghost view = { λ b. b.words.items };
}

/// Adds the members of another set.
fn join_words(into: &mut [u64], from: &[u64])
    requires { length into.old ≡ length from.now }
    ensures has { (i : ℕ) → Has into.new i ↔ (Has into.old i ⊎ Has from.now i) }
    ensures less { (into.new ≡ into.old) ⊎ (room into.new < room into.old) }
{
    'words: for k in 0..into.len() {
        into[k] |= from[k];
    }
}

/// Whether each member of the first set is one of the second.
fn within_words(a: &[u64], b: &[u64]) -> bool
    requires { length a.now ≡ length b.now }
    ensures yes { IsTrue result → (i : ℕ) → Has a.now i → Has b.now i }
    ensures no { result ≡ false → (i : ℕ) × Has a.now i × ¬ (Has b.now i) }
{
    'words: for k in 0..a.len() {
        if a[k] & !b[k] != 0 {
            return false;
        }
    }
    true
}

/// Takes all members out.
fn clear_words(set: &mut [u64])
    ensures len { length set.new ≡ length set.old }
    ensures none { (i : ℕ) → ¬ (Has set.new i) }
{
    set.fill(0)
}

/// Takes the members of another set out.
fn remove_words(set: &mut [u64], what: &[u64])
    requires { length set.old ≡ length what.now }
    ensures { (i : ℕ) → Has set.new i ↔ (Has set.old i × ¬ (Has what.now i)) }
{
    'words: for k in 0..set.len() {
        set[k] &= !what[k];
    }
}

/// Whether the two sets have a member in common.
fn meet_words(a: &[u64], b: &[u64]) -> bool
    requires { length a.now ≡ length b.now }
    ensures yes { IsTrue result → (i : ℕ) × Has a.now i × Has b.now i }
    ensures no { result ≡ false → (i : ℕ) → Has a.now i → ¬ (Has b.now i) }
{
    'words: for k in 0..a.len() {
        if a[k] & b[k] != 0 {
            return true;
        }
    }
    false
}

/// Adds a member.
fn insert_word(set: &mut [u64], bit: usize)
    requires { bit / 64 < length set.old }
    ensures { (i : ℕ) → Has set.new i ↔ (Has set.old i ⊎ (i ≡ bit)) }
{
    set[bit / 64] |= 1u64 << (bit % 64);
}

/// Whether the number is a member.
fn has_word(set: &[u64], bit: usize) -> bool
    requires { bit / 64 < length set.now }
    ensures { result ≡ (bit_of set.now bit == 1) }
{
    (set[bit / 64] >> (bit % 64)) & 1 == 1
}

impl Bits {
    /// The set without members, of so many words.
    pub fn new(alloc: Global, words: usize) -> Result<Bits, AllocError>
        ensures len { IfOk result (λ set. length set ≡ words) }
        ensures none { IfOk result (λ set. (i : ℕ) → ¬ (Has set i)) }
    {
        Ok(Bits {
            words: vec![in alloc; 0; words]?,
        })
    }

    /// Takes all members out.
    pub fn clear(&mut self)
        ensures len { length self.new ≡ length self.old }
        ensures none { (i : ℕ) → ¬ (Has self.new i) }
    {
        clear_words(self.words.as_mut_slice())
    }

    /// Whether the number is a member.
    pub fn has(&self, bit: usize) -> bool
        requires { bit / 64 < length self.now }
        ensures { result ≡ (bit_of self.now bit == 1) }
    {
        has_word(self.words.as_slice(), bit)
    }

    /// Adds a member.
    pub fn insert(&mut self, bit: usize)
        requires { bit / 64 < length self.old }
        ensures len { length self.new ≡ length self.old }
        ensures has { (i : ℕ) → Has self.new i ↔ (Has self.old i ⊎ (i ≡ bit)) }
    {
        insert_word(self.words.as_mut_slice(), bit)
    }

    /// The members of another set in place of its own.
    pub fn assign(&mut self, from: &Bits)
        requires { length self.old ≡ length from.now }
        ensures { self.new ≡ from.now }
    {
        self.words
            .as_mut_slice()
            .copy_from_slice(from.words.as_slice())
    }

    /// Adds the members of another set.
    pub fn join(&mut self, from: &Bits)
        requires { length self.old ≡ length from.now }
        ensures len { length self.new ≡ length self.old }
        ensures has { (i : ℕ) → Has self.new i ↔ (Has self.old i ⊎ Has from.now i) }
        ensures less { (self.new ≡ self.old) ⊎ (room self.new < room self.old) }
    {
        join_words(self.words.as_mut_slice(), from.words.as_slice())
    }

    /// Whether each member is one of the other set.
    pub fn is_within(&self, other: &Bits) -> bool
        requires { length self.now ≡ length other.now }
        ensures yes { IsTrue result → (i : ℕ) → Has self.now i → Has other.now i }
        ensures no { result ≡ false → (i : ℕ) × Has self.now i × ¬ (Has other.now i) }
    {
        within_words(self.words.as_slice(), other.words.as_slice())
    }

    /// Takes the members of another set out.
    pub fn remove(&mut self, what: &Bits)
        requires { length self.old ≡ length what.now }
        ensures len { length self.new ≡ length self.old }
        ensures has { (i : ℕ) → Has self.new i ↔ (Has self.old i × ¬ (Has what.now i)) }
    {
        remove_words(self.words.as_mut_slice(), what.words.as_slice())
    }

    /// Whether the two sets have a member in common.
    pub fn meets(&self, other: &Bits) -> bool
        requires { length self.now ≡ length other.now }
        ensures yes { IsTrue result → (i : ℕ) × Has self.now i × Has other.now i }
        ensures no { result ≡ false → (i : ℕ) → Has self.now i → ¬ (Has other.now i) }
    {
        meet_words(self.words.as_slice(), other.words.as_slice())
    }
}
