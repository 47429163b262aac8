//! A set that is passed, deleted where a test lets the second step run, and wanted by the third.
ghost use Rattle.view_rows.specs.FaultPlaces.{StandsAt};
ghost use Rattle.view_rows.specs.LaterAbends.{ComesLater, Makes};
ghost use Rattle.view_rows.specs.RolledOff.{IsResolvedOnce, RollsOff};
ghost use Rattle.view_rows.specs.Examples.{BehindTheFirstStep, BehindTheSecondStep, WithoutAWayOn, Refers, SeesABase, SeesItsPart};

/// Behind the first step the set is there and passed. The second step's test is met by a code over 4 alone, so there are two views.
pub fn behind_the_first_step()
    ensures { BehindTheFirstStep }
{}

/// Behind the second step it is deleted, or still passed where the step was bypassed.
pub fn behind_the_second_step()
    ensures { BehindTheSecondStep }
{}

/// The third step does not find it where the second deleted it, and finds it where the second was bypassed.
pub fn without_a_way_on()
    ensures { WithoutAWayOn }
{}

/// A volume is seen while a later step refers to its DD, and no longer.
pub fn seen_while_referred()
    ensures { Refers }
{}

/// Of a store a job sees what is held under its names.
pub fn sees_its_part()
    ensures { SeesItsPart }
{}

/// Of a group whose base is a generation's name it sees the numbers where it holds that base, and else that it is a group.
pub fn sees_a_base()
    ensures { SeesABase }
{}

/// What a run makes, by step, DD and volume.
pub fn makes()
    ensures { Makes }
{}

/// An ABEND of a later step is remembered with what was passed.
pub fn comes_later()
    ensures { ComesLater }
{}

/// A full group loses its lowest number, and its set where the group says SCRATCH.
pub fn rolls_off()
    ensures { RollsOff }
{}

/// A relative number keeps the meaning that it has before the first step.
pub fn is_resolved_once()
    ensures { IsResolvedOnce }
{}

/// The places of faults at dispositions and at the job's end.
pub fn stands_at()
    ensures { StandsAt }
{}
