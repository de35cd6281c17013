//! A list of at most 128 literals, the length of a double word. It takes no memory, and none of its
//! calls adds a gate.
ghost use Rattle.std.specs.Prelude.{◌≡◌, ℕ, ◌+◌, ◌*◌, ◌%◌, ◌^◌, ◌<◌, ◌≤◌, ◌++◌, ◌∷◌, [], length, slice_get, slice_range, Some, Bool, ◌==◌};
ghost use Rattle.jd_circuit.specs.Net.{low};
ghost use Rattle.jd_vectors.specs.Number.{number, Inside};

use arrayvec::ArrayVec;
use jd_circuit::Lit;
use std::marker::Model;

/// At most 128 literals, lowest first.
#[derive(Drop)]
pub struct Lits {
    items: ArrayVec<Lit, 128>,
}

impl Model for Lits {
    ghost use Rattle.std.specs.Prelude.{List};
    ghost use Rattle.jd_circuit.specs.declared.literals.Lit.{Lit};

    ghost Value = { List Lit };

    ghost view = { λ s. s.items.items };
}

impl Default for Lits {
    fn default() -> Lits {
        Lits::new()
    }
}

impl Lits {
    /// No literals.
    pub fn new() -> Lits
        ensures { result ≡ [] }
    {
        Lits {
            items: ArrayVec::new(),
        }
    }

    /// The literals of a slice.
    pub fn of(slice: &[Lit]) -> Lits
        requires { length slice.now ≤ 128 }
        ensures { result ≡ slice.now }
    {
        let mut lits = Lits::new();
        for i in 0..slice.len() {
            lits.push(slice[i]);
        }
        lits
    }

    /// The bits of a number, as constants.
    pub fn constant(size: u8, pattern: u64) -> Lits
        requires size { size ≤ 64 }
        requires small { pattern < 2 ^ size }
        ensures length { length result ≡ size }
        ensures number { (val : ℕ → Bool) → number val result ≡ pattern }
        ensures inside { (n : ℕ) → Inside n result }
    {
        let mut lits = Lits::new();
        let mut rest = pattern;
        for i in 0..size {
            lits.push(Lit::Const(rest % 2 == 1));
            rest /= 2;
        }
        lits
    }

    /// How many literals there are.
    pub fn len(&self) -> usize
        ensures len { result ≡ length self.now }
        ensures bound { length self.now ≤ 128 }
    {
        self.items.as_slice().len()
    }

    /// Whether there are none.
    pub fn is_empty(&self) -> bool
        ensures { result ≡ (length self.now == 0) }
    {
        self.len() == 0
    }

    /// Adds a literal at the top.
    pub fn push(&mut self, l: Lit)
        requires { length self.old < 128 }
        ensures { self.new ≡ self.old ++ l ∷ [] }
    {
        self.items.push(l);
    }

    /// The literal at a place, from 0.
    pub fn at(&self, i: usize) -> Lit
        requires { i < length self.now }
        ensures { slice_get self.now i ≡ Some result }
    {
        self.items.as_slice()[i]
    }

    /// The literals from one place up to another, without that one.
    pub fn part(&self, from: usize, to: usize) -> Lits
        requires order { from ≤ to }
        requires end { to ≤ length self.now }
        ensures { result ≡ slice_range self.now from to }
    {
        Lits::of(&self.items.as_slice()[from..to])
    }

    /// Adds other literals above these.
    pub fn append(&mut self, other: &Lits)
        requires { length self.old + length other.now ≤ 128 }
        ensures { self.new ≡ self.old ++ other.now }
    {
        for i in 0..other.len() {
            self.push(other.at(i));
        }
    }

    /// These literals above one that is lower.
    pub fn above(&self, lowest: Lit) -> Lits
        requires { length self.now < 128 }
        ensures { result ≡ lowest ∷ self.now }
    {
        let mut lits = Lits::new();
        lits.push(lowest);
        lits.append(self);
        lits
    }

    /// The number in so many literals: with constants 0 above it, or cut.
    pub fn resized(&self, size: usize) -> Lits
        requires { size ≤ 128 }
        ensures length { length result ≡ size }
        ensures inside { (n : ℕ) → Inside n self.now → Inside n result }
        ensures number { (val : ℕ → Bool)
            → number val result ≡ number val self.now % 2 ^ size }
    {
        if size <= self.len() {
            return self.part(0, size);
        }
        let mut lits = self.copy();
        for _i in self.len()..size {
            lits.push(Lit::Const(false));
        }
        lits
    }

    /// The same literals.
    pub fn copy(&self) -> Lits
        ensures { result ≡ self.now }
    {
        Lits::of(self.items.as_slice())
    }
}
