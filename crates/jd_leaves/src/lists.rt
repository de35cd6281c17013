//! Vectors with names of their own, so that contracts see a plain list: the answers and guards of a
//! leaf, and the book that keeps the leaves of a judgement or a check in order.
ghost use Rattle.std.specs.Prelude.{◌≡◌, ◌∷◌, ◌++◌, [], length, map, IfOk, OnErr, OnOk};
ghost use Rattle.jd_leaves.specs.Views.{leaf_of};

use crate::leaf::Leaf;
use hp_io::NoMemory;
use jd_circuit::Lit;
use std::alloc::Global;
use std::marker::Model;

/// Answers to the questions of two runs, in the order in which they are asked.
#[derive(Drop)]
pub struct Path {
    answers: Vec<bool>,
}

impl Model for Path {
    ghost use Rattle.std.specs.Prelude.{List, Bool};

    ghost Value = { List Bool };

    ghost view = { λ p. p.answers.items };
}

impl Path {
    /// The path of a vector's answers. Takes no memory.
    pub fn new(answers: Vec<bool>) -> Path
        ensures { result ≡ answers.items }
    {
        Path { answers }
    }

    /// The path of these answers, in memory of its own.
    pub fn of(alloc: Global, answers: &[bool]) -> Result<Path, NoMemory>
        ensures { IfOk result (λ path. path ≡ answers.now) }
    {
        match Vec::from_slice(alloc, answers) {
            Ok(answers) => Ok(Path { answers }),
            Err(_) => Err(NoMemory),
        }
    }

    /// The answers as a slice.
    pub fn as_slice(&self) -> &[bool]
        ensures { result.now ≡ self.now }
    {
        self.answers.as_slice()
    }
}

/// Literals that are true exactly where a start is allowed and comes to a path.
#[derive(Drop)]
pub struct Guards {
    literals: Vec<Lit>,
}

impl Model for Guards {
    ghost use Rattle.std.specs.Prelude.{List};
    ghost use Rattle.jd_circuit.specs.declared.literals.Lit.{Lit};

    ghost Value = { List Lit };

    ghost view = { λ g. g.literals.items };
}

impl Guards {
    /// The guards of a vector's literals. Takes no memory.
    pub fn new(literals: Vec<Lit>) -> Guards
        ensures { result ≡ literals.items }
    {
        Guards { literals }
    }

    /// The literals as a slice.
    pub fn as_slice(&self) -> &[Lit]
        ensures { result.now ≡ self.now }
    {
        self.literals.as_slice()
    }
}

/// Leaves in the order of their places in a tree, the side of no before that of yes.
#[derive(Drop)]
pub struct Book {
    leaves: Vec<Leaf>,
}

impl Model for Book {
    ghost use Rattle.std.specs.Prelude.{List, map};
    ghost use Rattle.jd_books.specs.Leaves.{Leaf};
    ghost use Rattle.jd_leaves.specs.Views.{leaf_of};

    ghost Value = { List Leaf };

    ghost view = { λ b. map leaf_of b.leaves.items };
}

impl Book {
    /// A book without leaves.
    pub fn new(alloc: Global) -> Book
        ensures { result ≡ [] }
    {
        Book {
            leaves: Vec::new(alloc),
        }
    }

    /// The leaves as a slice.
    pub fn as_slice(&self) -> &[Leaf]
        ensures { map leaf_of result.now ≡ self.now }
    {
        self.leaves.as_slice()
    }

    /// Puts a leaf at the end. After NoMemory the book is as before.
    pub fn push(&mut self, leaf: Leaf) -> Result<(), NoMemory>
        ensures pushed { OnOk result (self.new ≡ self.old ++ leaf_of leaf ∷ []) }
        ensures unchanged { OnErr result (self.new ≡ self.old) }
    {
        match self.leaves.push(leaf) {
            Ok(()) => Ok(()),
            Err(_) => Err(NoMemory),
        }
    }
}
