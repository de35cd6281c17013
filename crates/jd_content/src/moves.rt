//! Moves of whole words, without a gate, that save X, bring an answer to X and the flags, and drop
//! or lift the stack. `jd_operations` puts its answers so, and digits and recalls push so.
ghost use Rattle.std.specs.Prelude.{◌≡◌, ℕ, ◌+◌, ◌-◌, ◌*◌, ◌^◌, ◌<◌, ◌≤◌, Bool, List, length, map, if◌then◌else◌};
ghost use Rattle.jd_circuit.specs.Meaning.{lit_value};
ghost use Rattle.hp_model.specs.DataStep.{answered, lifted, of_three, of_two, of_x, with_x};
ghost use Rattle.jd_vectors.specs.Number.{number, Inside};
ghost use Rattle.jd_rows.specs.Answers.{answer_on, told, told_inside, AnswerFits, IsWord};
ghost use Rattle.jd_content.specs.Meaning.{data_on, flag_after, Fits, Puts};

use crate::content::SymContent;
use jd_circuit::Lit;
use jd_rows::SymAnswer;
use jd_vectors::Lits;

/// A flag that an answer sets, if it does.
#[tactic(auto, using(crate::proofs::Contents::flag_set, crate::proofs::Contents::inside_set))]
fn set_flag(flags: &mut [Lit; 6], number: usize, lit: Option<Lit>)
    requires { number < 6 }
    ensures meaning { (val : ℕ → Bool)
        → map (lit_value val) flags.new
        ≡ flag_after number (told val lit) (map (lit_value val) flags.old) }
    ensures inside { (n : ℕ) → Inside n flags.old → told_inside n lit → Inside n flags.new }
{
    if let Some(l) = lit {
        flags[number] = l;
    }
}

/// X is new, and the stack is lifted.
pub fn lift(content: &mut SymContent, x: Lits)
    ensures { content.new
        ≡ record content.old { x = x; y = content.old.x; z = content.old.y; t = content.old.z } }
{
    content.t = content.z.copy();
    content.z = content.y.copy();
    content.y = content.x.copy();
    content.x = x;
}

/// X is new, and the stack is lifted where that is enabled.
pub fn push(content: &mut SymContent, x: Lits, lifts: bool)
    ensures meaning { (val : ℕ → Bool)
        → data_on val content.new
        ≡ with_x (number val x) (if lifts then lifted
        (data_on val content.old) else data_on val content.old) }
    ensures fits { (n w : ℕ) → Fits n w content.old → IsWord n w x → Fits n w content.new }
    ensures same { content.new.nibbles ≡ content.old.nibbles }
{
    if lifts {
        lift(content, x);
    } else {
        content.x = x;
    }
}

/// LAST X = x.
pub fn save(content: &mut SymContent)
    ensures { content.new ≡ record content.old { l = content.old.x } }
{
    content.l = content.x.copy();
}

/// Y = z, Z = t.
pub fn drop_stack(content: &mut SymContent)
    ensures { content.new ≡ record content.old { y = content.old.z; z = content.old.t } }
{
    content.y = content.z.copy();
    content.z = content.t.copy();
}

/// X and the flags that are told are those of an answer.
pub fn put_answer(content: &mut SymContent, answer: SymAnswer)
    ensures { Puts answered answer content.old content.new }
{
    set_flag(&mut content.flags, 4, answer.carry);
    set_flag(&mut content.flags, 5, answer.range);
    content.x = answer.pattern;
}

/// The answer of an operation on X.
pub fn answer_x(content: &mut SymContent, answer: SymAnswer)
    ensures { Puts of_x answer content.old content.new }
{
    save(content);
    put_answer(content, answer);
}

/// The answer of an operation on Y and X.
pub fn answer_two(content: &mut SymContent, answer: SymAnswer)
    ensures { Puts of_two answer content.old content.new }
{
    save(content);
    drop_stack(content);
    put_answer(content, answer);
}

/// Y = t, Z = t.
pub fn drop_stack_twice(content: &mut SymContent)
    ensures { content.new ≡ record content.old { y = content.old.t; z = content.old.t } }
{
    content.y = content.t.copy();
    content.z = content.t.copy();
}

/// The answer of an operation on the double word Y, Z and on X.
pub fn answer_three(content: &mut SymContent, answer: SymAnswer)
    ensures { Puts of_three answer content.old content.new }
{
    save(content);
    drop_stack_twice(content);
    put_answer(content, answer);
}
