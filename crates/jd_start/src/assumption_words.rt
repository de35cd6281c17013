//! The names of what an assumption says, read and written; the order of its words is its reader's
//! and its writer's.
ghost use Rattle.std.specs.Prelude.{◌≡◌, ◌≤◌, length};
ghost use Rattle.jd_model.specs.ProblemLines.{num_part_name, num_part_named, relation_name, relation_named, against_named};

use jd_model::{Against, NumPart, Relation};
use jd_numbers::hexadecimal_number;

/// The part with a name.
pub fn num_part_named(word: &[u8]) -> Option<NumPart>
    ensures { result ≡ num_part_named word.now }
{
    match word {
        b"X" => Some(NumPart::X),
        b"Y" => Some(NumPart::Y),
        b"Z" => Some(NumPart::Z),
        b"T" => Some(NumPart::T),
        b"L" => Some(NumPart::L),
        b"I" => Some(NumPart::I),
        _ => None,
    }
}

/// The name of a part.
pub fn num_part_name(part: NumPart) -> &'static str
    ensures name { result.now ≡ num_part_name part }
    ensures len { length result.now ≤ 1 }
{
    match part {
        NumPart::X => "X",
        NumPart::Y => "Y",
        NumPart::Z => "Z",
        NumPart::T => "T",
        NumPart::L => "L",
        NumPart::I => "I",
    }
}

/// The relation with a name.
pub fn relation_named(word: &[u8]) -> Option<Relation>
    ensures { result ≡ relation_named word.now }
{
    match word {
        b"lt" => Some(Relation::Lt),
        b"le" => Some(Relation::Le),
        b"eq" => Some(Relation::Eq),
        b"ne" => Some(Relation::Ne),
        _ => None,
    }
}

/// The name of a relation.
pub fn relation_name(relation: Relation) -> &'static str
    ensures name { result.now ≡ relation_name relation }
    ensures len { length result.now ≤ 2 }
{
    match relation {
        Relation::Lt => "lt",
        Relation::Le => "le",
        Relation::Eq => "eq",
        Relation::Ne => "ne",
    }
}

/// What a word compares with: a part, or a number in hexadecimal digits.
pub fn against_named(word: &[u8]) -> Option<Against>
    ensures { result ≡ against_named word.now }
{
    match num_part_named(word) {
        Some(part) => Some(Against::Part(part)),
        None => hexadecimal_number(word).map(Against::Number),
    }
}
