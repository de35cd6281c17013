//! What is proved of the definitions.
ghost use Rattle.jd_spec_texts.specs.Specs.{TextsSaySpecs};
ghost use Rattle.jd_spec_texts.specs.WorkedSpecs.{WorkedSpecs};

/// The definitions of a spec's text give what the worked examples say.
pub fn worked_specs()
    ensures { WorkedSpecs }
{}

/// A spec that a text says gives at least one part, each at most once, each by a formula in its ranges;
/// its problem observes nothing, and the second routine has no lines.
pub fn texts_say_specs()
    ensures { TextsSaySpecs }
{}
