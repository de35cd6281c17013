//! One operation for all starts that give the same answers: an error changes control alone, else
//! `jd_operations` changes the data and `hp_control` the rest. A walk asks first, through
//! `jd_questions`, and hands in the answers.
ghost use Rattle.std.specs.Prelude.{◌+◌, ◌^◌, ◌<◌, ◌≤◌, IfOk, length};
ghost use Rattle.hp_model.specs.Questions.{IsComplete, asks as asked_next};
ghost use Rattle.hp_ops.specs.Meaning.{operation};
ghost use Rattle.hp_control.specs.Controls.{IsFromALine};
ghost use Rattle.jd_circuit.specs.Net.{Grows};
ghost use Rattle.jd_questions.specs.Questions.{asked_gates};
ghost use Rattle.jd_symbolic.specs.Machine.{Asks, AsksOnBits, Stands, Steps, StepsOnBits, state_of};

use crate::lines::Lines;
use crate::machine::SymMachine;
use hp_control::{error_of, fail, step_done};
use hp_model::Stop;
use hp_ops::Op;
use jd_circuit::{Circuit, Lit, NoMemory, Rewrite};
use jd_operations::change;
use jd_questions::asks;

impl SymMachine {
    /// The literal of the next question of an operation after the answers given. None where it asks no
    /// more.
    pub fn sym_asks<W: Rewrite>(
        &self,
        c: &mut Circuit<'_, W>,
        op: Op,
        given: &[bool],
    ) -> Result<Option<Lit>, NoMemory>
        requires stands { Stands c.old self.now }
        requires room { length c.old.gates < 2 ^ 29 }
        ensures asks { IfOk result (Asks c.new self.now (operation op) given.now) }
        ensures on_bits { IfOk result (AsksOnBits c.old c.new self.now (operation op) given.now) }
        ensures grows { Grows c.old c.new }
        ensures more { length c.new.gates ≤ length c.old.gates
            + asked_gates (asked_next (state_of self.now) (operation op) given.now) }
    {
        let lines = Lines::new(self.codes.codes(), self.blocks, self.extent);
        let asked = asks(c, &self.content, &self.control, &lines, op, given)?;
        // Each gate stands on variables before its own, so on a list of bits all have their values.
        let _ = c.mark();
        Ok(asked)
    }

    /// One operation, from the answers to what it asks. After NoMemory the machine is spent.
    pub fn sym_step<W: Rewrite>(
        &mut self,
        op: Op,
        c: &mut Circuit<'_, W>,
        given: &[bool],
    ) -> Result<Stop, NoMemory>
        requires stands { Stands c.old self.old }
        requires complete { IsComplete (state_of self.old) (operation op) given.now }
        requires from { IsFromALine (operation op) self.old.control.line }
        requires room { length c.old.gates < 2 ^ 29 }
        ensures steps { IfOk result (λ stop. Steps c.new self.old self.new stop
            (operation op) given.now) }
        ensures on_bits { IfOk result (λ _. StepsOnBits c.old c.new self.old self.new
            (operation op) given.now) }
        ensures grows { Grows c.old c.new }
        ensures more { length c.new.gates ≤ length c.old.gates + 2 ^ 17 }
    {
        let lines = Lines::new(self.codes.codes(), self.blocks, self.extent);
        match error_of(&self.control, &lines, op, given) {
            Some(error) => Ok(fail(&mut self.control, error)),
            None => {
                change(c, &mut self.content, &self.control, op, given)?;
                // As for a question: on a list of bits all gates have their values.
                let _ = c.mark();
                Ok(step_done(&mut self.control, &lines, op, given))
            }
        }
    }
}
