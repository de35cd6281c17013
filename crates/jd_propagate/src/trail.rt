//! True literals in the order made true, each with a mark at its key, so that a literal's value is
//! found without a search. No literal stands beside its negation, and going back cuts the end off.
ghost use Rattle.std.specs.Prelude.{◌≡◌, ℕ, ◌+◌, ◌-◌, ◌^◌, ◌<◌, ◌≤◌, ℤ, neg_ℤ, [], ◌∷◌, ◌++◌, true, false, OnOk, length, take, slice_index_or};
ghost use Rattle.jd_logic.specs.Literals.{IsLiteral, AreLiterals, has};
ghost use Rattle.jd_proving.specs.Propagation.{has_value};
ghost use Rattle.jd_propagate.specs.Trails.{key_of, IsTrail};

use crate::NoMemory;
use std::alloc::Global;
use std::marker::Model;

/// The true literals, and a mark for each.
#[derive(Drop)]
pub struct Trail {
    literals: Vec<i32>,
    marks: Vec<bool>,
}

impl Model for Trail {
    ghost use Rattle.std.specs.Prelude.{List, ℤ};
    ghost use Rattle.jd_propagate.specs.Trails.{AreMarked, IsTrail};

    ghost Value = { List ℤ };

    ghost view = { λ t. t.literals.items };

    ghost invariant = { λ t. AreMarked t.marks.items t.literals.items × IsTrail t.literals.items };
}

/// A literal's own number.
pub fn key(l: i32) -> usize
    requires { IsLiteral l }
    ensures { result ≡ key_of l }
{
    if l < 0 {
        2 * l.unsigned_abs() as usize - 1
    } else {
        2 * l as usize
    }
}

/// A literal's negation.
pub fn negation(l: i32) -> i32
    requires { IsLiteral l }
    ensures same { result ≡ neg_ℤ l }
    ensures literal { IsLiteral result }
{
    -l
}

/// Whether a key is marked.
pub fn is_marked(marks: &[bool], key: usize) -> bool
    ensures { result ≡ slice_index_or marks.now key false }
{
    if key < marks.len() { marks[key] } else { false }
}

/// Makes room for a mark, and changes none.
pub fn make_room(marks: &mut Vec<bool>, key: usize) -> Result<(), NoMemory>
    requires { key < 2 ^ 40 }
    ensures kept { (k : ℕ) → slice_index_or marks.new.items k false ≡ slice_index_or marks.old.items k false }
    ensures room { OnOk result (key < length marks.new.items) }
{
    if key < marks.len() {
        return Ok(());
    }
    match marks.resize(key + 1, false) {
        Ok(()) => Ok(()),
        Err(_) => Err(NoMemory),
    }
}

impl Trail {
    pub fn new(alloc: Global) -> Trail
        ensures { result ≡ [] }
    {
        Trail {
            literals: Vec::new(alloc),
            marks: Vec::new(alloc),
        }
    }

    pub fn len(&self) -> usize
        ensures { result ≡ length self.now }
    {
        self.literals.len()
    }

    /// The true literals, in the order made true.
    pub fn literals(&self) -> &[i32]
        ensures same { result.now ≡ self.now }
        ensures range { AreLiterals result.now }
        ensures orderly { IsTrail result.now }
    {
        self.literals.as_slice()
    }

    pub fn has(&self, l: i32) -> bool
        requires { IsLiteral l }
        ensures { result ≡ has self.now l }
    {
        is_marked(self.marks.as_slice(), key(l))
    }

    /// Whether a literal's negation is true.
    pub fn is_false(&self, l: i32) -> bool
        requires { IsLiteral l }
        ensures { result ≡ has self.now (neg_ℤ l) }
    {
        self.has(-l)
    }

    /// Whether a literal is true or false.
    pub fn has_value(&self, l: i32) -> bool
        requires { IsLiteral l }
        ensures { result ≡ has_value self.now l }
    {
        if self.has(l) {
            return true;
        }
        self.has(-l)
    }

    /// Makes a literal true that has no value.
    pub fn push(&mut self, l: i32) -> Result<(), NoMemory>
        requires literal { IsLiteral l }
        requires no_value { has_value self.old l ≡ false }
        ensures { OnOk result (self.new ≡ self.old ++ l ∷ []) }
    {
        let key = key(l);
        make_room(&mut self.marks, key)?;
        self.literals.push(l)?;
        self.marks[key] = true;
        Ok(())
    }

    /// Takes away the literal that was made true last.
    fn drop_last(&mut self)
        requires { 0 < length self.old }
        ensures { self.new ≡ take (length self.old - 1) self.old }
    {
        if let Some(l) = self.literals.pop() {
            let key = key(l);
            if key < self.marks.len() {
                self.marks[key] = false;
            }
        }
    }

    /// Takes away the literals that were made true last, but for so many.
    pub fn cut(&mut self, count: usize)
        requires { count ≤ length self.old }
        ensures { self.new ≡ take count self.old }
    {
        'last: while self.len() > count {
            self.drop_last();
        }
    }
}
