// Laws of the definitions. Each is the contract of a function that does nothing, so that it can't be dropped or weakened unseen.
ghost use Rattle.emit.specs.EdgeValues.{EdgeValues};

/// The edge values of days, seconds, decimals and the SVC segment together.
pub fn edge_values()
    ensures { EdgeValues }
{}
