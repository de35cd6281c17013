//! Walks: what a walk keeps and what contracts see of it, the making of a new one, and its path. Its
//! other calls stand in modules of their own, the questions in `answers` and the leaf in `leaves`.
ghost use Rattle.std.specs.Prelude.{◌≡◌, ◌≤◌, ◌^◌, [], false, None, IfOk, length};
ghost use Rattle.jd_problem.specs.Problems.{problem_of};
ghost use Rattle.jd_walk.specs.Walked.{AreAssumptions};

use crate::begins::begun;
use crate::places::{FirstEnd, Next, Saved};
use crate::runs::Position;
use hp_model::End;
use jd_circuit::{Circuit, Lit, NoMemory, Rewrite};
use jd_problem::Problem;
use jd_vectors::Lits;
use std::alloc::Global;
use std::marker::Model;

/// A walk through the runs of two routines, the first and then the second, along a path of answers.
/// It keeps the circuit that the path has made, a guard for each answer, and for each answer of no
/// where the run stood, so that it can go back there.
#[derive(Drop)]
pub struct Walk<'r, W> {
    pub(crate) alloc: Global,
    pub(crate) problem: Problem,
    pub(crate) circuit: Circuit<'r, W>,
    pub(crate) path: Vec<bool>,
    pub(crate) assumed: Vec<Lit>,
    pub(crate) guards: Vec<Lit>,
    pub(crate) saved: Vec<Saved>,
    pub(crate) first: Option<FirstEnd>,
    pub(crate) at: Position,
    /// How the second run ended, where both are over.
    pub(crate) last: Option<End>,
    pub(crate) next: Option<Next>,
    pub(crate) spent: bool,
}

impl<'r, W> Model for Walk<'r, W> {
    ghost use Rattle.std.specs.Prelude.{◌≡◌, ◌++◌, false, map};
    ghost use Rattle.jd_problem.specs.Problems.{problem_of};
    ghost use Rattle.jd_walk.specs.Spots.{no_of};
    ghost use Rattle.jd_walk.specs.Standing.{IsStanding};
    ghost use Rattle.jd_walk.specs.Walked.{Walked};

    ghost Value = { Walked };

    ghost view = { λ w. record {
      problem = problem_of w.problem;
      net = w.circuit;
      path = w.path.items;
      guards = w.assumed.items ++ w.guards.items;
      next = w.next;
      noes = map no_of w.saved.items;
      spent = w.spent;
    } };

    ghost invariant = { λ w. w.spent ≡ false → IsStanding (problem_of w.problem) w.circuit w.path.items
        w.assumed.items w.guards.items w.saved.items w.first w.at w.next w.last };
}

/// Literals in memory of their own.
fn listed(alloc: Global, lits: &Lits) -> Result<Vec<Lit>, NoMemory>
    ensures { IfOk result (λ list. list.items ≡ lits.now) }
{
    let mut list = Vec::new(alloc);
    for i in 0..lits.len() {
        list.push(lits.at(i))?;
    }
    Ok(list)
}

impl<'r, W: Rewrite> Walk<'r, W> {
    /// A walk at the empty path, where the first run begins.
    pub fn new(alloc: Global, problem: &Problem, rules: &'r W) -> Result<Walk<'r, W>, NoMemory>
        ensures problem { IfOk result (λ w. w.problem ≡ problem_of problem.now) }
        ensures path { IfOk result (λ w. w.path ≡ []) }
        ensures assumed { IfOk result AreAssumptions }
        ensures few { IfOk result (λ w. length w.net.gates ≤ 2 ^ 18) }
        ensures next { IfOk result (λ w. w.next ≡ None) }
        ensures noes { IfOk result (λ w. w.noes ≡ []) }
        ensures unspent { IfOk result (λ w. w.spent ≡ false) }
    {
        let problem = problem.copy();
        let mut circuit = Circuit::new(alloc, rules, problem.free_bits())?;
        let machine = begun(alloc, &mut circuit, &problem, false)?;
        let literals = machine.sym_assume(&mut circuit, &problem)?;
        let assumed = listed(alloc, &literals)?;
        let left = problem.steps;
        // `mark` tells that the circuit is wired, which the invariant needs.
        let _ = circuit.mark();
        Ok(Walk {
            alloc,
            problem,
            circuit,
            path: Vec::new(alloc),
            assumed,
            guards: Vec::new(alloc),
            saved: Vec::new(alloc),
            first: None,
            at: Position {
                machine,
                left,
                from: 0,
            },
            last: None,
            next: None,
            spent: false,
        })
    }

    /// The answers so far.
    pub fn path(&self) -> &[bool]
        ensures { result.now ≡ self.now.path }
    {
        self.path.as_slice()
    }
}
