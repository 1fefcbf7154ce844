// Laws of the definitions. Each is the contract of a function that does nothing, so that it can't be dropped or weakened unseen.
ghost use Rattle.std.specs.Prelude.{◌↔◌, IsTrue};
ghost use Rattle.nest.specs.Outline.{Outline};
ghost use Rattle.walk.specs.Complete.{Complete};
ghost use Rattle.walk.specs.Check.{complete_ok};
ghost use Rattle.walk.specs.Stops.{StopsRight};
ghost use Rattle.walk.specs.Height.{HeightEnough};
ghost use Rattle.walk.specs.Runs.{RunsFit};
ghost use Rattle.walk.specs.Closers.{CloserCounts};
ghost use Rattle.walk.specs.EachKind.{EachKind};
ghost use Rattle.walk.specs.Example.{ExampleWalked};

/// With a complete plan each row stops exactly once, in its loop, unless it or a row above it lacks its parent.
pub fn stops_right()
    ensures { (j : Outline) → Complete j → StopsRight j }
{}

/// The tests of the plan check pass exactly where the conditions hold.
pub fn check_right()
    ensures { (j : Outline) → IsTrue (complete_ok j) ↔ Complete j }
{}

/// As many levels as there are loops are enough for the walk.
pub fn height_enough()
    ensures { HeightEnough }
{}

/// A run of grouped rows stands in the list that it cuts.
pub fn runs_fit()
    ensures { RunsFit }
{}

/// A closer counts the child instances and the segments of its instance, itself among them.
pub fn closer_counts()
    ensures { CloserCounts }
{}

/// One job with a loop of each kind but `Absent`: its findings, where its rows hang, and its walk.
pub fn each_kind()
    ensures { EachKind }
{}

/// The walk of a small job.
pub fn example_walked()
    ensures { ExampleWalked }
{}
