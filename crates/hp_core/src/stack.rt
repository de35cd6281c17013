// The operations that move the stack.
ghost use Rattle.std.specs.Prelude.{◌≡◌, []};
ghost use Rattle.hp_ops.specs.Meaning.{of_stack};
ghost use Rattle.hp_core.specs.Machines.{Changes};

use crate::machine::Machine;
use crate::moves::{lift, push};
use hp_ops::Stack;
use hp_words::Content;

/// Y to X, Z to Y, T to Z and X to T.
fn roll_down(content: &mut Content)
    ensures { let d = content.old in content.new ≡ record d { x = d.y; y = d.z; z = d.t; t = d.x } }
{
    let x = content.x;
    content.x = content.y;
    content.y = content.z;
    content.z = content.t;
    content.t = x;
}

/// T to X, X to Y, Y to Z and Z to T.
fn roll_up(content: &mut Content)
    ensures { let d = content.old in content.new ≡ record d { x = d.t; y = d.x; z = d.y; t = d.z } }
{
    let t = content.t;
    lift(content);
    content.x = t;
}

/// X to Y and Y to X.
fn exchange(content: &mut Content)
    ensures { let d = content.old in content.new ≡ record d { x = d.y; y = d.x } }
{
    let x = content.x;
    content.x = content.y;
    content.y = x;
}

/// An operation that moves the stack.
pub fn change(machine: &mut Machine, op: Stack)
    ensures { Changes machine.old machine.new (of_stack op) [] }
{
    match op {
        Stack::Enter => lift(&mut machine.content),
        Stack::RollDown => roll_down(&mut machine.content),
        Stack::RollUp => roll_up(&mut machine.content),
        Stack::Exchange => exchange(&mut machine.content),
        Stack::ClearX => machine.content.x = 0,
        Stack::LastX => {
            let last = machine.content.l;
            push(&mut machine.content, machine.control.lift, last);
        }
    }
}
