//! Certificates as values, whose nodes are by their invariant exactly one tree with numbers in
//! range. So the writer needn't look, and whoever makes one, the reader or the judge, has shown it
//! before.
ghost use Rattle.std.specs.Prelude.{◌≡◌};
ghost use Rattle.jd_trees.specs.Trees.{IsCert};

use jd_trees::Node;
use std::marker::Model;

/// A certificate: the nodes of exactly one tree, each fork before its two subtrees, and the subtree of
/// no before that of yes. Its ids, literals and hints are in their ranges, so that what is written
/// reads back.
#[derive(Debug, Drop)]
pub struct Cert {
    nodes: Vec<Node>,
}

impl Model for Cert {
    ghost use Rattle.std.specs.Prelude.{List};
    ghost use Rattle.jd_trees.specs.declared.Node.{Node};
    ghost use Rattle.jd_trees.specs.Trees.{IsCert};

    ghost Value = { List Node };

    ghost view = { λ c. c.nodes.items };

    ghost invariant = { λ c. IsCert c.nodes.items };
}

impl Cert {
    /// The certificate of a tree's nodes. Takes no memory.
    pub fn new(nodes: Vec<Node>) -> Cert
        requires { IsCert nodes.items }
        ensures { result ≡ nodes.items }
    {
        Cert { nodes }
    }

    /// The nodes in preorder.
    pub fn nodes(&self) -> &[Node]
        ensures same { result.now ≡ self.now }
        ensures tree { IsCert result.now }
    {
        self.nodes.as_slice()
    }

    /// The vector that holds the nodes. Takes no memory.
    pub fn into_nodes(self) -> Vec<Node>
        ensures same { result.items ≡ self }
        ensures tree { IsCert result.items }
    {
        self.nodes
    }
}
