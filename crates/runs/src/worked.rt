//! Worked cases of the definitions.
ghost use Rattle.runs.specs.Worked.{WorkedCasesComeOut};

/// The worked cases come out as they were written down.
pub fn worked_cases_come_out()
    ensures { WorkedCasesComeOut }
{}
