//! What a row of the operation table answers, as literals: a pattern and two flags.
ghost use Rattle.std.specs.Prelude.{◌≡◌, None};

use jd_circuit::Lit;
use jd_vectors::Lits;

/// What an operation on words answers. None means that the flag stays.
#[derive(Drop)]
pub struct SymAnswer {
    pub pattern: Lits,
    pub carry: Option<Lit>,
    pub range: Option<Lit>,
}

impl SymAnswer {
    /// A pattern, with both flags as they were.
    pub fn plain(pattern: Lits) -> SymAnswer
        ensures { result ≡ record { pattern = pattern; carry = None; range = None } }
    {
        SymAnswer {
            pattern,
            carry: None,
            range: None,
        }
    }
}
