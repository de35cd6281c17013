//! A check that others hold and hand events to, as a reader of lines does. It keeps no event; once
//! memory ran out it says so to every call.
ghost use Rattle.std.specs.Prelude.{◌≡◌, ◌∷◌, ◌++◌, [], List, false, true, IfOk, OnErr, OnOk};
ghost use Rattle.jd_model.specs.Problems.{Problem as ProblemOf};
ghost use Rattle.jd_problem.specs.Problems.{problem_of};
ghost use Rattle.jd_trees.specs.declared.CertEvent.{CertEvent};
ghost use Rattle.jd_trees.specs.Trees.{Tree, preorder};
ghost use Rattle.jd_trees.specs.Events.{events_of};
ghost use Rattle.jd_check.specs.Events.{BeginsTree, IsShort};
ghost use Rattle.jd_check.specs.Runs.{IsChecked, IsChecking, IsUnchanged, event_of, is_over, is_spent};

use crate::checked::Checked;
use crate::going::{CheckRun, Event, Going};
use crate::progress::Progress;
use crate::turns::{advance, answer_of};
use hp_io::NoMemory;
use jd_problem::Problem;
use jd_rules::RuleSet;
use jd_trees::CertEvent;
use jd_walk::{Book, Kind, Walk};
use std::alloc::Global;

impl<'r> CheckRun<'r> {
    /// A check to which no event has come.
    pub fn new(
        alloc: Global,
        problem: &Problem,
        rules: &'r RuleSet,
    ) -> Result<CheckRun<'r>, NoMemory>
        ensures checking { IfOk result (IsChecking (problem_of problem.now) []) }
        ensures unspent { IfOk result (λ run. is_spent run ≡ false) }
    {
        let walk = Walk::new(alloc, problem, rules)?;
        let progress = Progress {
            walk,
            whole: false,
            book: Book::new(alloc),
            bad: None,
            unrefuted: None,
        };
        Ok(CheckRun {
            alloc,
            going: Going {
                progress,
                part: None,
                shape: None,
            },
            spent: false,
        })
    }

    /// Takes the next event, lent by whoever keeps it.
    pub(crate) fn hear(&mut self, event: Event<'_>) -> Result<(), NoMemory>
        ensures taken { OnOk result ((p : ProblemOf) (events : List CertEvent) → IsChecking p events self.old → BeginsTree (events ++ event_of event.entry ∷ [])
            → IsShort events → IsChecking p (events ++ event_of event.entry ∷ []) self.new) }
        ensures over { OnOk result (is_over self.old ≡ true → IsUnchanged self.old self.new) }
        ensures unspent { OnOk result ((is_spent self.old ≡ false) × (is_spent self.new ≡ false)) }
        ensures spent { OnErr result (is_spent self.new ≡ true) }
    {
        if self.spent {
            return Err(NoMemory);
        }
        self.spent = true;
        advance(self.alloc, &mut self.going, event)?;
        self.spent = false;
        Ok(())
    }

    /// Takes the next event of a certificate. `Nothing` is none, and changes nothing, nor does any
    /// event once the tree is whole or doesn't cover. After NoMemory the run is spent: this and
    /// `finish` answer NoMemory from then on.
    pub fn event(&mut self, event: &CertEvent) -> Result<(), NoMemory>
        ensures taken { OnOk result ((p : ProblemOf) (events : List CertEvent) → IsChecking p events self.old → BeginsTree (events ++ event.now ∷ [])
            → IsShort events → IsChecking p (events ++ event.now ∷ []) self.new) }
        ensures over { OnOk result (is_over self.old ≡ true → IsUnchanged self.old self.new) }
        ensures unspent { OnOk result ((is_spent self.old ≡ false) × (is_spent self.new ≡ false)) }
        ensures spent { OnErr result (is_spent self.new ≡ true) }
    {
        match event {
            CertEvent::Nothing => { if self.spent { Err(NoMemory) } else { Ok(()) } }
            CertEvent::Fork => {
                self.hear(Event::Fork)?;
                Ok(())
            }
            CertEvent::Leaf => {
                self.hear(Event::Begin(Kind::Whole))?;
                Ok(())
            }
            CertEvent::Cut => {
                self.hear(Event::Begin(Kind::Cut))?;
                Ok(())
            }
            CertEvent::Proof(line) => {
                self.hear(Event::Line(line))?;
                Ok(())
            }
            CertEvent::End => {
                self.hear(Event::End)?;
                Ok(())
            }
        }
    }

    /// What the check says of the certificate whose events have all come.
    pub fn finish(self) -> Result<Checked, NoMemory>
        ensures checked { IfOk result (λ answer. (p : ProblemOf) (tree : Tree) → IsChecking p (events_of (preorder tree)) self.entry → IsChecked p tree answer) }
        ensures unspent { OnOk result (is_spent self.entry ≡ false) }
        ensures spent { OnErr result (is_spent self.entry ≡ true) }
    {
        let CheckRun {
            alloc: _,
            going,
            spent,
        } = self;
        if spent {
            return Err(NoMemory);
        }
        let checked = answer_of(going);
        Ok(checked)
    }
}
