//! Laws of places. Each function does nothing: what it ensures is the law.
ghost use Rattle.finding_lines.specs.Lines.{AdaptiveFindingsHavePlaces, BaseFindingsHavePlaces};

/// Where every part of a module has its place, so has each finding of the Base Profile.
pub fn base_findings_have_places()
    ensures { BaseFindingsHavePlaces }
{}

/// Where every part of a module has its place, so has each finding of the Adaptive Profile.
pub fn adaptive_findings_have_places()
    ensures { AdaptiveFindingsHavePlaces }
{}
