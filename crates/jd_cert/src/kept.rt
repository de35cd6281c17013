//! The whole tree, put together from events, which the reader of lines doesn't keep. The reading of
//! a whole text rests on it, and the judge makes its own leaves and cuts by the same `node`.
ghost use Rattle.std.specs.Prelude.{◌≡◌, OnOk};
ghost use Rattle.jd_logic.specs.Ranges.{AreLines};
ghost use Rattle.jd_trees.specs.Trees.{IsNode, node};
ghost use Rattle.jd_trees.specs.CertTexts.{nothing_told, with_event};

use jd_lrat::{Line, Log, NoMemory};
use jd_trees::{CertEvent, Kind, Node};
use std::alloc::Global;
use std::marker::Model;
use std::mem;

/// The nodes that are whole, and the kind and the lines of the leaf or cut that began last.
#[derive(Drop)]
pub struct Kept {
    alloc: Global,
    nodes: Vec<Node>,
    kind: Kind,
    log: Vec<Line>,
}

impl Model for Kept {
    ghost use Rattle.jd_trees.specs.CertTexts.{Told};

    ghost Value = { Told };

    ghost view = { λ k. record { nodes = k.nodes.items; kind = k.kind; log = k.log.items } };
}

/// A leaf or a cut of a certificate. Takes no memory.
pub fn node(kind: Kind, log: Log) -> Node
    ensures node { result ≡ node kind log }
    ensures ranges { IsNode result }
{
    // `lines` tells that the numbers of the lines are in their ranges.
    let _ = log.lines();
    match kind {
        Kind::Whole => Node::Leaf(log),
        Kind::Cut => Node::Cut(log),
    }
}

impl Kept {
    pub fn new(alloc: Global) -> Kept
        ensures { result ≡ nothing_told }
    {
        Kept {
            alloc,
            nodes: Vec::new(alloc),
            kind: Kind::Whole,
            log: Vec::new(alloc),
        }
    }

    pub fn into_nodes(self) -> Vec<Node>
        ensures { result.items ≡ self.nodes }
    {
        self.nodes
    }

    /// Takes what an event tells.
    pub fn put(&mut self, event: CertEvent) -> Result<(), NoMemory>
        requires { AreLines self.old.log }
        ensures { OnOk result (self.new ≡ with_event self.old event) }
    {
        match event {
            CertEvent::Nothing => {}
            CertEvent::Fork => self.nodes.push(Node::Fork)?,
            CertEvent::Leaf => {
                self.kind = Kind::Whole;
                self.log.clear();
            }
            CertEvent::Cut => {
                self.kind = Kind::Cut;
                self.log.clear();
            }
            CertEvent::Proof(line) => self.log.push(line)?,
            CertEvent::End => {
                let log = Log::new(mem::replace(&mut self.log, Vec::new(self.alloc)));
                self.nodes.push(node(self.kind, log))?;
            }
        }
        Ok(())
    }
}
