//! The canonical text of a certificate, by which the program hands out what the judge found. It
//! goes to a sink node by node, over a page, takes no memory, and reads back as the same nodes.
ghost use Rattle.std.specs.Prelude.{◌≡◌, ℕ, take, flat_map, Ok, OnOk};
ghost use Rattle.std.specs.Io.KnownBytes.{Appends};
ghost use Rattle.hp_io.specs.Causes.{HasCause};
ghost use Rattle.jd_text.specs.Words.{line, written};
ghost use Rattle.jd_trees.specs.CertTexts.{certificate_of};
ghost use Rattle.jd_trees.specs.CertWriter.{certificate_text, log_lines, node_lines, proof_words};
ghost use Rattle.jd_cert.specs.Pages.{Gives, stand};

use crate::certs::Cert;
use crate::pages::Page;
use hp_io::{Failed, Sink};
use jd_lrat::{Line, Log};
use jd_trees::Node;

/// Gives a line of a proof.
fn put_line<K: Sink>(page: &mut Page, sink: &mut K, proof: &Line)
    ensures { Gives (stand (K.written sink.old) (K.faults sink.old) page.old) (stand (K.written sink.new) (K.faults sink.new) page.new) (line (proof_words proof.now)) }
{
    match proof {
        Line::Derive { id, clause, hints } => {
            page.put_number(sink, *id);
            page.put_numbers(sink, clause.literals());
            page.put(sink, "0 ");
            page.put_numbers(sink, hints.hints());
            page.put(sink, "0\n");
        }
        Line::Delete { ids } => {
            page.put(sink, "1 d ");
            page.put_numbers(sink, ids.ids());
            page.put(sink, "0\n");
        }
    }
}

/// Gives the lines of a leaf or a cut.
fn put_lines<K: Sink>(page: &mut Page, sink: &mut K, lines: &[Line])
    ensures { Gives (stand (K.written sink.old) (K.faults sink.old) page.old) (stand (K.written sink.new) (K.faults sink.new) page.new) (flat_map (λ proof. line (proof_words proof)) lines.now) }
{
    for proof in lines {
        put_line(page, sink, proof);
    }
}

/// Gives the lines of a leaf or a cut, and that of its end.
fn put_log<K: Sink>(page: &mut Page, sink: &mut K, log: &Log)
    ensures { Gives (stand (K.written sink.old) (K.faults sink.old) page.old) (stand (K.written sink.new) (K.faults sink.new) page.new) (written (log_lines log.now)) }
{
    put_lines(page, sink, log.lines());
    page.put(sink, "end\n");
}

/// Gives the lines of a node.
fn put_node<K: Sink>(page: &mut Page, sink: &mut K, node: &Node)
    ensures { Gives (stand (K.written sink.old) (K.faults sink.old) page.old) (stand (K.written sink.new) (K.faults sink.new) page.new) (written (node_lines node.now)) }
{
    match node {
        Node::Fork => page.put(sink, "fork\n"),
        Node::Leaf(log) => {
            page.put(sink, "leaf\n");
            put_log(page, sink, log);
        }
        Node::Cut(log) => {
            page.put(sink, "cut\n");
            put_log(page, sink, log);
        }
    }
}

/// Gives the lines of nodes.
fn put_nodes<K: Sink>(page: &mut Page, sink: &mut K, nodes: &[Node])
    ensures { Gives (stand (K.written sink.old) (K.faults sink.old) page.old) (stand (K.written sink.new) (K.faults sink.new) page.new) (flat_map (λ node. written (node_lines node)) nodes.now) }
{
    for node in nodes {
        put_node(page, sink, node);
    }
}

/// Writes the canonical text of a certificate, with one blank between two words and no empty line. A
/// deletion has the id 1. Takes no memory.
pub fn write_cert<K: Sink>(cert: &Cert, sink: &mut K) -> Result<(), Failed>
    ensures whole { OnOk result (Appends (K.written sink.old) (K.written sink.new) (certificate_text cert.now)) }
    ensures part { (n : ℕ) × Appends (K.written sink.old) (K.written sink.new) (take n (certificate_text cert.now)) }
    ensures cause { HasCause (K.faults sink.old) (K.faults sink.new) result }
    ensures reads_back { certificate_of (certificate_text cert.now) ≡ Ok cert.now }
{
    let mut page = Page::new();
    page.put(sink, "certificate 1\n");
    put_nodes(&mut page, sink, cert.nodes());
    page.finish(sink)
}
