//! Puts a machine where a run of a problem begins: at line 1 of one of its routines, over data that
//! `jd_inputs` makes, without a gate. There a walk also gets the literals of what is assumed.
ghost use Rattle.std.specs.Prelude.{◌≡◌, ℕ, ◌+◌, ◌^◌, ◌<◌, ◌≤◌, Bool, IfOk, List, None, [], length, map, true};
ghost use Rattle.jd_model.specs.Assumptions.{holds};
ghost use Rattle.jd_model.specs.Problems.{free_bits, start_of};
ghost use Rattle.jd_model.specs.Seen.{first_control};
ghost use Rattle.jd_problem.specs.Problems.{problem_of};
ghost use Rattle.jd_circuit.specs.Meaning.{lit_value};
ghost use Rattle.jd_circuit.specs.Net.{Grows, Solves};
ghost use Rattle.jd_vectors.specs.Number.{AreOf};
ghost use Rattle.jd_content.specs.Meaning.{data_on};
ghost use Rattle.jd_symbolic.specs.Machine.{Stands, routine_of, state_of, val_of};

use crate::machine::SymMachine;
use hp_asm::Routine;
use hp_control::{Calls, Control};
use jd_circuit::{Circuit, NoMemory, Rewrite};
use jd_inputs::{assumption_lits, start_content};
use jd_problem::Problem;
use jd_vectors::Lits;
use std::alloc::Global;

/// Control where both runs begin.
fn beginning(problem: &Problem) -> Control
    ensures { result ≡ record {
      size = problem.now.size;
      mode = problem.now.mode;
      base = problem.now.base;
      line = 1;
      calls = [];
      lift = true;
      entry = None;
      window = 0;
    } }
{
    Control {
        size: problem.size,
        mode: problem.mode,
        base: problem.base,
        line: 1,
        calls: Calls::new(),
        lift: true,
        entry: None,
        window: 0,
    }
}

/// The routine of the first run, or of the second.
fn chosen(problem: &Problem, second: bool) -> Routine
    ensures { result ≡ routine_of (problem_of problem.now) second }
{
    if second {
        problem.second.copy()
    } else {
        problem.first.copy()
    }
}

impl SymMachine {
    /// The machine with which the run of the first routine begins, or of the second. The start's free
    /// bits are the inputs, and no gate is added.
    pub fn begin<W: Rewrite>(
        alloc: Global,
        c: &mut Circuit<'_, W>,
        problem: &Problem,
        second: bool,
    ) -> Result<SymMachine, NoMemory>
        requires inputs { c.old.inputs ≡ free_bits (problem_of problem.now) }
        ensures same { c.new ≡ c.old }
        ensures control { IfOk result (λ m. state_of m
            ≡ first_control (problem_of problem.now) (routine_of (problem_of problem.now) second)) }
        ensures stands { IfOk result (Stands c.new) }
        ensures means { IfOk result (λ m. (bits : List Bool) → length bits ≡ c.new.inputs
            → data_on (val_of c.new bits) m.content ≡ start_of (problem_of problem.now) bits) }
    {
        let content = start_content(alloc, problem)?;
        Ok(SymMachine {
            control: beginning(problem),
            content,
            codes: chosen(problem, second),
            blocks: problem.blocks(),
            extent: problem.memory,
        })
    }

    /// For each assumption of a problem, in order, the literal that it holds of the start at which this
    /// machine stands.
    pub fn sym_assume<W: Rewrite>(
        &self,
        c: &mut Circuit<'_, W>,
        problem: &Problem,
    ) -> Result<Lits, NoMemory>
        requires stands { Stands c.old self.now }
        requires room { length c.old.gates < 2 ^ 29 }
        ensures count { IfOk result (λ ls. length ls ≡ length (problem_of problem.now).assumed) }
        ensures of { IfOk result (AreOf c.new) }
        ensures means { IfOk result (λ ls. (val : ℕ → Bool) → Solves c.new val
            → map (lit_value val) ls
            ≡ map (λ a. holds a (data_on val self.now.content)) (problem_of problem.now).assumed) }
        ensures grows { Grows c.old c.new }
        ensures more { length c.new.gates ≤ length c.old.gates + 2 ^ 18 }
    {
        let lits = assumption_lits(c, &self.content, problem)?;
        Ok(lits)
    }
}
