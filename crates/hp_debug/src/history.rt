//! The states that a debugger has recorded, in a queue whose room is taken once, so that recording needs no
//! memory and can't fail.
ghost use Rattle.std.specs.Prelude.{◌≡◌, ◌≤◌, ◌<◌, ◌-◌, ◌∷◌, [], ◌++◌, length, take, MatchOption, get_or};
ghost use Rattle.std.specs.VecDeque.{deque_len, deque_capacity};
ghost use Rattle.hp_run.specs.Seen.{calculator_of};
ghost use Rattle.hp_debug.specs.Debuggers.{within_depth};
ghost use Rattle.hp_debug.specs.History.{states_of};

use hp_run::Calculator;
use std::collections::VecDeque;

/// Adds a state to a history of at most `depth`, and drops the oldest where it would be one too many.
pub fn record_state(history: &mut VecDeque<Calculator>, depth: u16, state: Calculator)
    requires depth { 1 ≤ depth }
    requires few { deque_len history.old ≤ depth }
    requires room { depth ≤ deque_capacity history.old }
    ensures states { states_of history.new.items
        ≡ within_depth depth (states_of history.old.items ++ calculator_of state ∷ []) }
    ensures few { deque_len history.new ≤ depth }
    ensures room { deque_capacity history.new ≡ deque_capacity history.old }
{
    if history.len() == usize::from(depth) {
        history.pop_front();
    }
    history.push_back_reserved(state);
}
