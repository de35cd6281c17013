//! An exclusive or that is one gate for two variables, whichever literals of them are asked for.
ghost use Rattle.std.specs.Prelude.{◌≡◌, ℕ, ◌+◌, ◌^◌, ◌<◌, ◌≤◌, Bool, length, IfOk};
ghost use Rattle.jd_circuit.specs.Meaning.{lit_value, xor};
ghost use Rattle.jd_circuit.specs.Net.{Net, IsOf, Grows, Solves};
ghost use Rattle.jd_vectors.specs.Number.{is_not, plain, turned};

use jd_circuit::{Circuit, Lit, NoMemory, Rewrite};

// Whether a literal is a negation.
fn is_not(l: Lit) -> bool
    ensures { result ≡ is_not l }
{
    match l {
        Lit::Not(_) => true,
        Lit::Var(_) | Lit::Const(_) => false,
    }
}

// A literal without its negation.
fn plain(l: Lit) -> Lit
    ensures { result ≡ plain l }
{
    match l {
        Lit::Not(v) => Lit::Var(v),
        Lit::Var(v) => Lit::Var(v),
        Lit::Const(b) => Lit::Const(b),
    }
}

// The negation, where that is asked for.
fn turned(turn: bool, l: Lit) -> Lit
    ensures { result ≡ turned turn l }
{
    if turn { l.opposite() } else { l }
}

/// Whether two literals differ. It adds at most one gate, whose arguments are the variables without
/// their negations.
pub fn differ<W: Rewrite>(c: &mut Circuit<'_, W>, a: Lit, b: Lit) -> Result<Lit, NoMemory>
    requires first { IsOf c.old a }
    requires second { IsOf c.old b }
    requires room { length c.old.gates < 2 ^ 30 }
    ensures of { IfOk result (IsOf c.new) }
    ensures meaning { IfOk result (λ l. (val : ℕ → Bool) → Solves c.new val
        → lit_value val l ≡ xor (lit_value val a) (lit_value val b)) }
    ensures grows { Grows c.old c.new }
    ensures one_more { length c.new.gates ≤ length c.old.gates + 1 }
{
    let l = c.xor(plain(a), plain(b))?;
    Ok(turned(is_not(a), turned(is_not(b), l)))
}
