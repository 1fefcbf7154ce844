// Laws of the definitions. Each is the contract of a function that does nothing, so that it can't be dropped or weakened unseen.
ghost use Rattle.nest.specs.Outline.{Outline};
ghost use Rattle.nest.specs.NestFindings.{MissingRight};
ghost use Rattle.nest.specs.Example.{ExampleNested};

/// Each row that lacks its parent is reported once as such, and no other row is.
pub fn missing_right()
    ensures { (j : Outline) → MissingRight j }
{}

/// A small job: where its rows hang, and what nest reports.
pub fn example_nested()
    ensures { ExampleNested }
{}
