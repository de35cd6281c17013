//! What a problem may assume of its starts. Code and definitions share these types; what they mean
//! stands in the definitions.

/// A part of a start that is a number.
#[derive(Clone, Copy, Debug, PartialEq, Eq)]
pub enum NumPart {
    X,
    Y,
    Z,
    T,
    /// LAST X.
    L,
    /// The index register.
    I,
}

/// How the first of two numbers stands to the second.
#[derive(Clone, Copy, Debug, PartialEq, Eq)]
pub enum Relation {
    /// `lt`: it is less.
    Lt,
    /// `le`: it is less or the same.
    Le,
    /// `eq`: it is the same.
    Eq,
    /// `ne`: it is another.
    Ne,
}

/// What a part is compared with.
#[derive(Clone, Copy, Debug, PartialEq, Eq)]
pub enum Against {
    Part(NumPart),
    Number(u64),
}

/// That a part of a start stands in a relation to another part or to a number. Patterns are compared
/// as whole numbers, in every mode.
#[derive(Clone, Copy, Debug, PartialEq, Eq)]
pub struct Assume {
    pub left: NumPart,
    pub relation: Relation,
    pub right: Against,
}

/// That X is X, which holds of every start: it stands in the places of a list that are free.
impl Default for Assume {
    fn default() -> Assume {
        Assume {
            left: NumPart::X,
            relation: Relation::Eq,
            right: Against::Part(NumPart::X),
        }
    }
}
