//! Small clauses with known answers, for both searches alike: refuted, a model, or a spent budget.
//! Beside them stand the texts of logs, the plain search's order and the words of the command line.
use crate::answers::{Answer, answer_to, log_text};
use crate::searches::Search;
use anyhow::Result;

/// All clauses of three variables.
const EIGHT: &[u8] =
    b"p cnf 3 8\n1 2 3 0 1 2 -3 0 1 -2 3 0 1 -2 -3 0 -1 2 3 0 -1 2 -3 0 -1 -2 3 0 -1 -2 -3 0\n";

#[test]
fn worked_examples(rt: HostRuntime) -> Result<()> {
    for (text, budget, want) in [
        (EIGHT, 1, Answer::Unknown),
        (EIGHT, 16, Answer::Refuted),
        (b"p cnf 1 1\n1 0\n", 4, Answer::Model),
        (b"p cnf 1 2\n1 0 -1 0\n", 4, Answer::Refuted),
        (b"p cnf 0 1\n0\n", 4, Answer::Refuted),
        (
            b"p cnf 2 3\n1 1 0 -1 2 2 0 -2 -1 -2 0\n",
            4,
            Answer::Refuted,
        ),
        (b"p cnf 1 1\n1 -1 0\n", 4, Answer::Model),
        (b"p cnf 0 0\n", 4, Answer::Model),
    ] {
        for search in [Search::Plain, Search::Learning] {
            assert_eq!(rt; answer_to(rt.alloc(), search, budget, text)?, want);
        }
    }
    Ok(())
}

/// A spent budget leaves as many lines, and a clause without literals is refuted with none.
#[test]
fn texts_of_logs(rt: HostRuntime) -> Result<()> {
    for search in [Search::Plain, Search::Learning] {
        let spent = log_text(rt.alloc(), search, 1, EIGHT)?;
        let lines = spent.as_slice().strip_prefix(b"c unknown\n").unwrap_or(b"");
        assert_eq!(rt; lines.iter().filter(|b| **b == b'\n').count(), 1);
        let given = log_text(rt.alloc(), search, 4, b"p cnf 0 1\n0\n")?;
        assert_eq!(rt; given.as_slice(), b"".as_slice());
        let model = log_text(rt.alloc(), search, 4, b"p cnf 1 1\n1 0\n")?;
        assert_eq!(rt; model.as_slice(), b"c model 1\n".as_slice());
    }
    Ok(())
}

/// The plain search decides first what clauses name: no line has variable 1.
#[test]
fn order_of_decisions(rt: HostRuntime) -> Result<()> {
    let text = b"p cnf 3 4\n2 3 0 2 -3 0 -2 3 0 -2 -3 0\n";
    let log = log_text(rt.alloc(), Search::Plain, 4, text)?;
    assert_eq!(rt; log.as_slice(), b"5 2 0 1 2 0\n6 0 5 3 4 0\n".as_slice());
    Ok(())
}

#[test]
fn words(rt: HostRuntime) -> Result<()> {
    for (name, budget, want) in [
        ("learning", "65536", Some((Search::Learning, 65536))),
        ("plain", "1", Some((Search::Plain, 1))),
        ("other", "1", None),
        ("plain", "", None),
    ] {
        let words = vec![in rt.alloc();
            name.to_string(rt.alloc())?,
            budget.to_string(rt.alloc())?,
        ]?;
        assert_eq!(rt; Search::asked(words.as_slice()), want);
    }
    Ok(())
}
