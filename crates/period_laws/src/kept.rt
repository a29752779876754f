// What the stored changes of a period tell.
ghost use Rattle.period_laws.specs.KeptLaws.{StepsKeepIt, ChangesTell};

/// Each step keeps that the stored changes tell the ranks of the held votes, the stage, who signed and the front.
pub fn steps_keep_it()
    ensures { StepsKeepIt }
{}

/// They tell so after whatever came.
pub fn changes_tell()
    ensures { ChangesTell }
{}
