//! The check of a certificate that is there as a whole: its nodes are told as events, so that both
//! ways have one check.
ghost use Rattle.std.specs.Prelude.{◌≡◌, ◌++◌, List, IfOk, OnOk};
ghost use Rattle.jd_model.specs.Problems.{Problem as ProblemOf};
ghost use Rattle.jd_problem.specs.Problems.{problem_of};
ghost use Rattle.jd_trees.specs.declared.CertEvent.{CertEvent};
ghost use Rattle.jd_trees.specs.Trees.{Tree, preorder, node};
ghost use Rattle.jd_trees.specs.Events.{node_events};
ghost use Rattle.jd_check.specs.Events.{BeginsTree, IsShort};
ghost use Rattle.jd_check.specs.Runs.{IsChecked, IsChecking};

use crate::checked::Checked;
use crate::going::{CheckRun, Event};
use hp_io::NoMemory;
use jd_cert::Cert;
use jd_logic::Line;
use jd_problem::Problem;
use jd_rules::RuleSet;
use jd_trees::Node;
use jd_walk::Kind;
use std::alloc::Global;

/// Takes a leaf or a cut with its lines.
fn take_leaf(run: &mut CheckRun<'_>, kind: Kind, log: &[Line]) -> Result<(), NoMemory>
    ensures { OnOk result ((p : ProblemOf) (events : List CertEvent) → IsChecking p events run.old → BeginsTree (events ++ node_events (node kind log.now))
        → IsShort events → IsChecking p (events ++ node_events (node kind log.now)) run.new) }
{
    run.hear(Event::Begin(kind))?;
    for line in log {
        run.hear(Event::Line(line))?;
    }
    run.hear(Event::End)?;
    Ok(())
}

/// Takes a node.
fn take_node(run: &mut CheckRun<'_>, node: &Node) -> Result<(), NoMemory>
    ensures { OnOk result ((p : ProblemOf) (events : List CertEvent) → IsChecking p events run.old → BeginsTree (events ++ node_events node.now)
        → IsShort events → IsChecking p (events ++ node_events node.now) run.new) }
{
    match node {
        Node::Fork => {
            run.hear(Event::Fork)?;
            Ok(())
        }
        Node::Leaf(log) => {
            take_leaf(run, Kind::Whole, log.lines())?;
            Ok(())
        }
        Node::Cut(log) => {
            take_leaf(run, Kind::Cut, log.lines())?;
            Ok(())
        }
    }
}

/// Checks a certificate.
pub fn check(
    alloc: Global,
    problem: &Problem,
    rules: &RuleSet,
    cert: &Cert,
) -> Result<Checked, NoMemory>
    ensures { IfOk result (λ answer. (tree : Tree) → preorder tree ≡ cert.now → IsChecked (problem_of problem.now) tree answer) }
{
    let mut run = CheckRun::new(alloc, problem, rules)?;
    for node in cert.nodes() {
        take_node(&mut run, node)?;
    }
    let checked = run.finish()?;
    Ok(checked)
}
