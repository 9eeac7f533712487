ghost use Rattle.intake.specs.Accepted.{EveryNodeHasAValue, Exactly, LooseNodesAreFound, ReadBack, ReadyToStart};
ghost use Rattle.intake.specs.Samples.{Samples};

// The laws of the intake stand, and the small images come out as they should.
pub fn laws_stand()
    ensures exactly { Exactly }
    ensures reads { ReadBack }
    ensures valued { EveryNodeHasAValue }
    ensures loose { LooseNodesAreFound }
    ensures ready { ReadyToStart }
    ensures samples { Samples }
{}
