// The moves of the stack, and what answers do.
ghost use Rattle.std.specs.Prelude.{◌≡◌, if◌then◌else◌};
ghost use Rattle.hp_core.specs.Moves.{lifted, flags_after};

use hp_words::{Answer, Content};

/// Y = x, Z = y and T = z, so that X can be new.
pub fn lift(content: &mut Content)
    ensures { content.new ≡ lifted content.old }
{
    content.t = content.z;
    content.z = content.y;
    content.y = content.x;
}

/// X is new, after a lift where stack lift is enabled.
pub fn push(content: &mut Content, lifts: bool, x: u64)
    ensures { content.new ≡ record (if lifts then lifted content.old else content.old) { x = x } }
{
    if lifts {
        lift(content);
    }
    content.x = x;
}

/// Y = z and Z = t, while T stays.
pub fn drop(content: &mut Content)
    ensures { content.new ≡ record content.old { y = content.old.z; z = content.old.t } }
{
    content.y = content.z;
    content.z = content.t;
}

/// Y = t and Z = t, while T stays.
pub fn drop_two(content: &mut Content)
    ensures { content.new ≡ record content.old { y = content.old.t; z = content.old.t } }
{
    content.y = content.t;
    content.z = content.t;
}

/// LAST X = x.
pub fn save(content: &mut Content)
    ensures { content.new ≡ record content.old { l = content.old.x } }
{
    content.l = content.x;
}

/// X is the answer's pattern, and the flags are as it tells.
pub fn put(content: &mut Content, answer: Answer)
    ensures { content.new
        ≡ record content.old { x = answer.pattern; flags = flags_after answer content.old.flags } }
{
    if let Some(carry) = answer.carry {
        content.flags[4] = carry;
    }
    if let Some(range) = answer.range {
        content.flags[5] = range;
    }
    content.x = answer.pattern;
}
