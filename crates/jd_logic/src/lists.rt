//! The lists that lines are made of, with their ranges. Each is made from a `Vec` and gives it
//! back, without taking memory.
ghost use Rattle.std.specs.Prelude.{◌≡◌};
ghost use Rattle.jd_logic.specs.Literals.{AreLiterals, AreHints, AreIds};

use std::marker::Model;

/// A clause's literals, which are numbers other than 0 of magnitude below 2^31. As in DIMACS, a
/// variable's number is its literal, and the number's negative the negation.
#[derive(Debug, Drop)]
pub struct Clause {
    literals: Vec<i32>,
}

impl Model for Clause {
    ghost use Rattle.std.specs.Prelude.{List, ℤ};
    ghost use Rattle.jd_logic.specs.Literals.{AreLiterals};

    ghost Value = { List ℤ };

    ghost view = { λ c. c.literals.items };

    ghost invariant = { λ c. AreLiterals c.literals.items };
}

impl Clause {
    /// The clause of a vector's literals. Takes no memory.
    pub fn new(literals: Vec<i32>) -> Clause
        requires { AreLiterals literals.items }
        ensures { result ≡ literals.items }
    {
        Clause { literals }
    }

    /// The literals in their order.
    pub fn literals(&self) -> &[i32]
        ensures same { result.now ≡ self.now }
        ensures range { AreLiterals result.now }
    {
        self.literals.as_slice()
    }

    /// The vector that holds the literals. Takes no memory.
    pub fn into_literals(self) -> Vec<i32>
        ensures same { result.items ≡ self }
        ensures range { AreLiterals result.items }
    {
        self.literals
    }
}

/// The hints of a derivation, which are numbers other than 0 of magnitude below 2^63: ids of
/// clauses, or negative where a RAT step begins.
#[derive(Debug, Drop)]
pub struct Hints {
    hints: Vec<i64>,
}

impl Model for Hints {
    ghost use Rattle.std.specs.Prelude.{List, ℤ};
    ghost use Rattle.jd_logic.specs.Literals.{AreHints};

    ghost Value = { List ℤ };

    ghost view = { λ h. h.hints.items };

    ghost invariant = { λ h. AreHints h.hints.items };
}

impl Hints {
    /// The hints of a vector. Takes no memory.
    pub fn new(hints: Vec<i64>) -> Hints
        requires { AreHints hints.items }
        ensures { result ≡ hints.items }
    {
        Hints { hints }
    }

    /// The hints in their order.
    pub fn hints(&self) -> &[i64]
        ensures same { result.now ≡ self.now }
        ensures range { AreHints result.now }
    {
        self.hints.as_slice()
    }

    /// The vector that holds the hints. Takes no memory.
    pub fn into_hints(self) -> Vec<i64>
        ensures same { result.items ≡ self }
        ensures range { AreHints result.items }
    {
        self.hints
    }
}

/// The ids that a deletion names, which are numbers from 1 to 2^63 - 1.
#[derive(Debug, Drop)]
pub struct Ids {
    ids: Vec<u64>,
}

impl Model for Ids {
    ghost use Rattle.std.specs.Prelude.{List, ℕ};
    ghost use Rattle.jd_logic.specs.Literals.{AreIds};

    ghost Value = { List ℕ };

    ghost view = { λ i. i.ids.items };

    ghost invariant = { λ i. AreIds i.ids.items };
}

impl Ids {
    /// The ids of a vector. Takes no memory.
    pub fn new(ids: Vec<u64>) -> Ids
        requires { AreIds ids.items }
        ensures { result ≡ ids.items }
    {
        Ids { ids }
    }

    /// The ids in their order.
    pub fn ids(&self) -> &[u64]
        ensures same { result.now ≡ self.now }
        ensures range { AreIds result.now }
    {
        self.ids.as_slice()
    }

    /// The vector that holds the ids. Takes no memory.
    pub fn into_ids(self) -> Vec<u64>
        ensures same { result.items ≡ self }
        ensures range { AreIds result.items }
    {
        self.ids
    }
}
