// Laws of the definitions. Each is the contract of a function that does nothing, so that it can't be dropped or weakened unseen.
ghost use Rattle.column.specs.Equality.{EqualityDecided};
ghost use Rattle.column.specs.Samples.{SamplesRead};

/// The tests that compare cells, rows of cells and answers say yes for equals and no for all others.
pub fn equality_decided()
    ensures { EqualityDecided }
{}

/// Columns of each kind: their cells, the keys and references that they give, and one of them in bytes.
pub fn samples()
    ensures { SamplesRead }
{}
