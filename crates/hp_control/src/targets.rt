// Where jumps go: the search for a label, and the errors of a jump that goes nowhere.
ghost use Rattle.std.specs.Prelude.{◌≡◌, ℕ, ◌+◌, ◌-◌, ◌<◌, ◌≤◌, ◌==◌, max, length, slice_index, true, Some, IfSome, IfOk};
ghost use Rattle.std.specs.Option.{ok_or};
ghost use Rattle.std.specs.Result.{result_err};
ghost use Rattle.hp_model.specs.Lists.{first_from};
ghost use Rattle.hp_model.specs.Questions.{label_questions, are_complete};
ghost use Rattle.hp_model.specs.ControlStep.{label_line, target_line as target_line_of, gosub_error};
ghost use Rattle.hp_ops.specs.Meaning.{named};
ghost use Rattle.hp_control.specs.Controls.{control_of};

use crate::answers::{answer_at, number_given};
use crate::control::Control;
use crate::program::Program;
use hp_ops::{HexDigit, Target};

/// The first line from one on and before another that has a code.
fn find_line<P: Program>(program: &P, first: u16, end: u16, code: u8) -> Option<u16>
    requires from_one { 1 ≤ first }
    requires to_lines { end ≤ length (P.listing program.now).codes + 1 }
    requires few { end ≤ 1000 }
    ensures found { result ≡ first_from
        (λ i. slice_index (P.listing program.now).codes (i - 1) == code) first (end - first) }
    ensures bound { IfSome result (λ line. line < end) }
    ensures from { IfSome result (λ line. first ≤ line) }
{
    for i in first..end {
        if program.code(i) == code {
            return Some(i);
        }
    }
    None
}

/// The line of a label, sought from the line number on to the last and then before it.
#[inline(always)]
fn find_label<P: Program>(control: &Control, program: &P, label: HexDigit) -> Option<u16>
    requires { control.now.line ≤ length (P.listing program.now).codes + 1 }
    ensures found { result ≡ label_line (control_of control.now (P.listing program.now))
        (max control.now.line 1) label.value }
    ensures bound { IfSome result (λ line. line ≤ length (P.listing program.now).codes) }
    ensures from_one { IfSome result (λ line. 1 ≤ line) }
{
    let first = control.line.max(1);
    let lines = program.lines();
    let code = label.label_code();
    match find_line(program, first, lines + 1, code) {
        Some(line) => Some(line),
        None => find_line(program, 1, first, code),
    }
}

/// The line to which a jump goes. None where no line has the label, or where the index register
/// names none.
#[inline(always)]
fn target_line<P: Program>(
    control: &Control,
    program: &P,
    target: Target,
    given: &[bool],
) -> Option<u16>
    requires line { control.now.line ≤ length (P.listing program.now).codes + 1 }
    requires complete { are_complete (label_questions (named target)) given.now ≡ true }
    ensures found { result ≡ target_line_of (control_of control.now (P.listing program.now))
        (named target) given.now }
    ensures bound { IfSome result (λ line. line ≤ length (P.listing program.now).codes) }
    ensures from_one { IfSome result (λ line. 1 ≤ line) }
{
    match target {
        Target::Label(label) => find_label(control, program, label),
        Target::Index => {
            if answer_at(given, 0) {
                return None;
            }
            let label = HexDigit {
                value: number_given(given) as u8,
            };
            find_label(control, program, label)
        }
    }
}

/// The line of a GTO, or Error 4 where its label is missing.
#[inline(always)]
pub(crate) fn goto_line<P: Program>(
    control: &Control,
    program: &P,
    target: Target,
    given: &[bool],
) -> Result<u16, u8>
    requires line { control.now.line ≤ length (P.listing program.now).codes + 1 }
    requires complete { are_complete (label_questions (named target)) given.now ≡ true }
    ensures value { result ≡ ok_or (target_line_of (control_of control.now (P.listing program.now))
        (named target) given.now) 4 }
    ensures bound { IfOk result (λ line. line ≤ length (P.listing program.now).codes) }
    ensures from_one { IfOk result (λ line. 1 ≤ line) }
{
    target_line(control, program, target, given).ok_or(4)
}

/// The line of a GSB, or Error 4 where its label is missing, and else Error 5 where four returns
/// are pending.
pub(crate) fn gosub_line<P: Program>(
    control: &Control,
    program: &P,
    target: Target,
    given: &[bool],
) -> Result<u16, u8>
    requires line { control.now.line ≤ length (P.listing program.now).codes + 1 }
    requires complete { are_complete (label_questions (named target)) given.now ≡ true }
    ensures found { IfOk result (λ line. target_line_of
        (control_of control.now (P.listing program.now)) (named target) given.now ≡ Some line) }
    ensures error { result_err result ≡ gosub_error (target_line_of
        (control_of control.now (P.listing program.now)) (named target) given.now)
        control.now.calls }
    ensures room { IfOk result (λ line. length control.now.calls < 4) }
    ensures bound { IfOk result (λ line. line ≤ length (P.listing program.now).codes) }
    ensures from_one { IfOk result (λ line. 1 ≤ line) }
{
    match goto_line(control, program, target, given) {
        Err(error) => Err(error),
        Ok(line) => {
            if control.calls.is_full() {
                Err(5)
            } else {
                Ok(line)
            }
        }
    }
}
