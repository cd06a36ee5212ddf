// Each function here states one theorem by its contract, and does nothing.
ghost use Rattle.descent.specs.Descent.{DescendsDecided};
ghost use Rattle.descent.specs.Rings.{RingedDecided, RingFound, RingShows};
ghost use Rattle.descent.specs.Coverage.{CoveredDecided, UppermostDecided, UnderUppermost};
ghost use Rattle.descent.specs.Closure.{ClosureRight, ClosureOnlyPlaces};

// The test for descent answers as descent is defined.
pub fn descent_is_decided()
    ensures { DescendsDecided }
{}

// The test for rings tells whether some kind leads up to itself.
pub fn rings_are_decided()
    ensures { RingedDecided }
{}

// Where the test for rings is passed, there is a ring of different kinds.
pub fn ring_is_found()
    ensures { RingFound }
{}

// A ring of different kinds passes the test for rings.
pub fn ring_shows()
    ensures { RingShows }
{}

// The test for covered kinds answers as they are defined.
pub fn covered_is_decided()
    ensures { CoveredDecided }
{}

// The test for uppermost kinds answers as they are defined.
pub fn uppermost_is_decided()
    ensures { UppermostDecided }
{}

// Where there is no ring, every covered kind lies under an uppermost one.
pub fn covered_lies_under_uppermost()
    ensures { UnderUppermost }
{}

// A table of lines, closed over all places, has at two kinds' places whether one descends from the other.
pub fn closure_is_right()
    ensures { ClosureRight }
{}

// The closed table has nothing at a place of no kind.
pub fn closure_has_only_places()
    ensures { ClosureOnlyPlaces }
{}
