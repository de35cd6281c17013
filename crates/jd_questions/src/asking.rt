//! A symbolic machine asks here what an operation wants to know next. The question follows from the
//! operation, the size of memory and the answers so far; the literal that answers it is made over
//! the content.
ghost use Rattle.std.specs.Prelude.{◌+◌, ◌-◌, ◌^◌, ◌<◌, ◌≤◌, IfOk, length};
ghost use Rattle.hp_model.specs.Questions.{asks as asked_next};
ghost use Rattle.hp_ops.specs.Meaning.{operation};
ghost use Rattle.hp_control.specs.Controls.{control_of};
ghost use Rattle.jd_circuit.specs.Net.{Grows, variables};
ghost use Rattle.jd_content.specs.Meaning.{Fits};
ghost use Rattle.jd_questions.specs.Questions.{Asks, asked_gates};

use crate::literals::literal;
use crate::next::next_question;
use hp_control::{Control, Program, register_count};
use hp_ops::Op;
use jd_circuit::{Circuit, Lit, NoMemory, Rewrite};
use jd_content::SymContent;

/// The literal of the next question of an operation after the answers given. None where it asks no
/// more.
pub fn asks<W: Rewrite, P: Program>(
    c: &mut Circuit<'_, W>,
    content: &SymContent,
    control: &Control,
    program: &P,
    op: Op,
    given: &[bool],
) -> Result<Option<Lit>, NoMemory>
    requires fits { Fits (variables c.old) control.now.size.bits content.now }
    requires room { length c.old.gates < 2 ^ 30 - 2 ^ 21 }
    ensures asks { IfOk result (Asks c.new (control_of control.now
        (P.listing program.now)) content.now (operation op) given.now) }
    ensures grows { Grows c.old c.new }
    ensures more { length c.new.gates ≤ length c.old.gates
        + asked_gates (asked_next (control_of control.now (P.listing program.now)) (operation op) given.now) }
{
    match next_question(program.bytes(), op, given) {
        None => Ok(None),
        Some(question) => {
            let registers = register_count(program, control.size);
            let l = literal(c, content, control, registers, question)?;
            Ok(Some(l))
        }
    }
}
