//! The words of a formula, read from the first to the last. Words that are too many, or a number out
//! of range, are counted but not kept; the count has room for a line as long as memory.
ghost use Rattle.std.specs.Prelude.{◌≡◌, ◌^◌, ◌<◌, ◌≤◌, true, length, IfSome};
ghost use Rattle.jd_text.specs.Places.{words_at};
ghost use Rattle.jd_formulas.specs.Formulas.{operands};
ghost use Rattle.jd_spec_texts.specs.FormulaWords.{are_kept, formula_told, pushed};
ghost use Rattle.jd_spec_texts.specs.SpecLines.{power_token, tokens_named, whole_formula};

use crate::kinds::Power;
use crate::names::{power_named, token_named};
use jd_formulas::is_token_in_range;
use jd_gives::{Formula, Token};
use jd_numbers::decimal_number;
use jd_text::next_word;

/// How many formulas a word takes.
fn operands(token: Token) -> u8
    ensures count { result ≡ operands token }
    ensures bound { result ≤ 4 }
{
    match token {
        Token::Part(_) | Token::Number(_) => 0,
        Token::Mod(_) | Token::Shr(_) => 1,
        Token::Plus | Token::Minus | Token::Times => 2,
        Token::Less => 4,
    }
}

/// One word more.
fn push(kept: Option<Formula>, token: Token) -> Option<Formula>
    requires { IfSome kept (λ ts. are_kept ts ≡ true) }
    ensures pushed { result ≡ pushed kept token }
    ensures kept { IfSome result (λ ts. are_kept ts ≡ true) }
{
    match kept {
        None => None,
        Some(formula) => {
            if formula.tokens().len() >= 64 || !is_token_in_range(token) {
                return None;
            }
            let mut formula = formula;
            formula.push(token);
            Some(formula)
        }
    }
}

/// One operator with its K more.
fn push_power(kept: Option<Formula>, power: Power, k: u64) -> Option<Formula>
    requires { IfSome kept (λ ts. are_kept ts ≡ true) }
    ensures pushed { result ≡ pushed kept (power_token power k) }
    ensures kept { IfSome result (λ ts. are_kept ts ≡ true) }
{
    if k > 128 {
        return None;
    }
    match power {
        Power::Mod => push(kept, Token::Mod(k as u8)),
        Power::Shr => push(kept, Token::Shr(k as u8)),
    }
}

/// The formula that the words from a place of a line on are. None where they aren't one whole formula,
/// and no words where those are more than 64 or one has a number out of range.
pub fn take_formula(line: &[u8], from: usize) -> Option<Option<Formula>>
    requires { from ≤ length line.now }
    ensures { result ≡ formula_told (whole_formula (tokens_named (words_at line.now from))) }
{
    let mut kept = Some(Formula::new());
    let mut missing: u128 = 1;
    let mut at = from;
    'words: while let Some((word, end)) = next_word(line, at) {
        if missing == 0 {
            return None;
        }
        match power_named(word) {
            Some(power) => {
                let Some((next, after)) = next_word(line, end) else {
                    return None;
                };
                let Some(k) = decimal_number(next) else {
                    return None;
                };
                kept = push_power(kept, power, k);
                at = after;
            }
            None => {
                let Some(token) = token_named(word) else {
                    return None;
                };
                missing = missing - 1 + u128::from(operands(token));
                kept = push(kept, token);
                at = end;
            }
        }
    }
    if missing == 0 { Some(kept) } else { None }
}
