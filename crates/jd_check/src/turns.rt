//! What an event makes of a check: a node opened, a line checked, a node ended. No event is looked
//! at once the tree is whole or doesn't cover.
ghost use Rattle.std.specs.Prelude.{◌≡◌, ◌∷◌, ◌++◌, ◌||◌, [], List, false, true, is_some, None, Some, OnOk};
ghost use Rattle.jd_model.specs.Problems.{Problem};
ghost use Rattle.jd_trees.specs.declared.CertEvent.{CertEvent};
ghost use Rattle.jd_trees.specs.Events.{begun_events, events_of};
ghost use Rattle.jd_trees.specs.Trees.{Tree, preorder};
ghost use Rattle.jd_check.specs.Events.{BeginsTree, IsShort};
ghost use Rattle.jd_check.specs.Runs.{IsBetween, IsChecked, IsGoing, IsInside, event_of};

use crate::checked::Checked;
use crate::going::{Event, Going};
use crate::nodes::{end, fork, open};
use crate::progress::{Open, Opened};
use hp_io::NoMemory;
use jd_logic::Line;
use jd_walk::Kind;
use std::alloc::Global;

/// Opens a leaf or a cut.
fn begin(alloc: Global, going: &mut Going<'_>, kind: Kind) -> Result<(), NoMemory>
    requires unspent { going.old.progress.walk.spent ≡ false }
    requires closed { going.old.part ≡ None }
    requires covers { going.old.shape ≡ None }
    ensures unspent { OnOk result (going.new.progress.walk.spent ≡ false) }
    ensures going { OnOk result ((p : Problem) (events : List CertEvent) → IsBetween p events going.old.progress → IsGoing p (events ++ begun_events kind []) going.new) }
{
    match open(alloc, &mut going.progress, kind)? {
        Opened::Open(part) => going.part = Some(part),
        Opened::Shape(path) => going.shape = Some(path),
    }
    Ok(())
}

/// Takes a fork.
fn branch(alloc: Global, going: &mut Going<'_>) -> Result<(), NoMemory>
    requires closed { going.old.part ≡ None }
    ensures unspent { OnOk result (going.new.progress.walk.spent ≡ false) }
    ensures going { OnOk result ((p : Problem) (events : List CertEvent) → IsBetween p events going.old.progress → IsGoing p (events ++ event_of Event.Fork ∷ []) going.new) }
{
    let shape = fork(alloc, &mut going.progress)?;
    going.shape = shape;
    Ok(())
}

/// Takes an event where no leaf or cut is open.
fn at_node(alloc: Global, going: &mut Going<'_>, event: Event<'_>) -> Result<(), NoMemory>
    requires unspent { going.old.progress.walk.spent ≡ false }
    requires closed { going.old.part ≡ None }
    requires covers { going.old.shape ≡ None }
    ensures unspent { OnOk result (going.new.progress.walk.spent ≡ false) }
    ensures going { OnOk result ((p : Problem) (events : List CertEvent) → IsBetween p events going.old.progress → BeginsTree (events ++ event_of event.entry ∷ [])
        → IsGoing p (events ++ event_of event.entry ∷ []) going.new) }
{
    match event {
        Event::Fork => {
            branch(alloc, going)?;
            Ok(())
        }
        Event::Begin(kind) => {
            begin(alloc, going, kind)?;
            Ok(())
        }
        Event::Line(_) | Event::End => Ok(()),
    }
}

/// Takes an event where a leaf or a cut is open, which stays open where there is an answer.
fn in_log(
    alloc: Global,
    going: &mut Going<'_>,
    part: Open,
    event: Event<'_>,
) -> Result<(), NoMemory>
    requires unspent { going.old.progress.walk.spent ≡ false }
    requires closed { going.old.part ≡ None }
    requires covers { going.old.shape ≡ None }
    ensures unspent { OnOk result (going.new.progress.walk.spent ≡ false) }
    ensures going { OnOk result ((p : Problem) (events : List CertEvent) → IsInside p events going.old.progress part → BeginsTree (events ++ event_of event.entry ∷ [])
        → IsShort events → IsGoing p (events ++ event_of event.entry ∷ []) going.new) }
{
    let mut part = part;
    match event {
        Event::Fork | Event::Begin(_) => {
            going.part = Some(part);
            Ok(())
        }
        Event::Line(line) => {
            part.check.step(line)?;
            going.part = Some(part);
            Ok(())
        }
        Event::End => {
            end(alloc, &mut going.progress, part)?;
            Ok(())
        }
    }
}

/// Whether no event is looked at any more.
fn is_over(going: &Going<'_>) -> bool
    ensures { result ≡ (is_some going.now.shape || going.now.progress.whole) }
{
    going.shape.is_some() || going.progress.whole
}

/// Takes an event.
pub fn advance(alloc: Global, going: &mut Going<'_>, event: Event<'_>) -> Result<(), NoMemory>
    requires unspent { going.old.progress.walk.spent ≡ false }
    ensures unspent { OnOk result (going.new.progress.walk.spent ≡ false) }
    ensures over { OnOk result ((is_some going.old.shape || going.old.progress.whole) ≡ true → going.new ≡ going.old) }
    ensures going { OnOk result ((p : Problem) (events : List CertEvent) → IsGoing p events going.old → BeginsTree (events ++ event_of event.entry ∷ [])
        → IsShort events → IsGoing p (events ++ event_of event.entry ∷ []) going.new) }
{
    if is_over(going) {
        return Ok(());
    }
    match going.part.take() {
        None => {
            at_node(alloc, going, event)?;
            Ok(())
        }
        Some(part) => {
            in_log(alloc, going, part, event)?;
            Ok(())
        }
    }
}

/// What is answered after the last event.
pub fn answer_of(going: Going<'_>) -> Checked
    ensures { (p : Problem) (tree : Tree) → IsGoing p (events_of (preorder tree)) going.entry → IsChecked p tree result }
{
    let (progress, shape) = going.into_parts();
    match shape {
        Some(path) => Checked::Shape(path),
        None => progress.answer(),
    }
}
