//! What is proved of the definitions.
ghost use Rattle.jd_trees.specs.Laws.{CertificatesReadBack, CertificatesAreTrees, EventsAreTrees, TreesAreTold};
ghost use Rattle.jd_trees.specs.WorkedCertificates.{WorkedCertificates};

/// The definitions read and write the worked certificates as they are said to.
pub fn worked_certificates()
    ensures { WorkedCertificates }
{}

/// What is read is the list of the nodes of a tree, with all numbers in their ranges.
pub fn certificates_are_trees()
    ensures { CertificatesAreTrees }
{}

/// The events of lines that were taken, `Nothing` left out, begin those of a tree in preorder, and are
/// all of them where the tree is whole.
pub fn events_are_trees()
    ensures { EventsAreTrees }
{}

/// A list of nodes is that of one tree at most.
pub fn trees_are_told()
    ensures { TreesAreTold }
{}

/// A certificate that is written reads back.
pub fn certificates_read_back()
    ensures { CertificatesReadBack }
{}
