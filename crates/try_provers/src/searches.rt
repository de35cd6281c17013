//! The plain search and the learning one as one type, so that `main` can choose by a word and
//! `answers` needn't know which it has. The budget is kept within the range that both take.
ghost use Rattle.jd_proving.specs.Proving.{AreDecided};

use anyhow::{Result, bail};
use jd_lrat::Clauses;
use jd_propagate::Proof;
use std::alloc::Global;
use std::fmt;

/// A search for a proof.
#[derive(Clone, Copy, Debug, PartialEq, Eq)]
pub enum Search {
    Plain,
    Learning,
}

impl fmt::Display for Search {
    fn fmt<W: fmt::Write>(&self, f: &mut fmt::Formatter<W>) -> fmt::Result {
        match self {
            Search::Plain => write!(f, "plain"),
            Search::Learning => write!(f, "learning"),
        }
    }
}

impl Search {
    /// The search of a name.
    fn of_name(name: &str) -> Option<Search> {
        match name {
            "plain" => Some(Search::Plain),
            "learning" => Some(Search::Learning),
            _ => None,
        }
    }

    /// The search and the budget that two words ask for.
    pub fn asked(words: &[String]) -> Option<(Search, u32)> {
        if words.len() != 2 {
            return None;
        }
        let search = Search::of_name(words[0].as_str())?;
        let budget = words[1].as_str().parse::<u32>().ok()?;
        Some((search, budget))
    }

    /// What the search answers within a budget of at least 1 and at most 2^20 lines.
    pub fn prove(self, alloc: Global, clauses: &Clauses, inputs: u32, budget: u32) -> Result<Proof>
        requires { AreDecided clauses.now inputs }
    {
        let budget = budget.max(1).min(1 << 20);
        let proof = match self {
            Search::Plain => jd_prover::prove(alloc, clauses, inputs, budget),
            Search::Learning => jd_learn::prove(alloc, clauses, inputs, budget),
        };
        match proof {
            Ok(proof) => Ok(proof),
            Err(_) => bail!("no memory"),
        }
    }
}
