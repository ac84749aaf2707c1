//! The report that is made of what is kept.
ghost use Rattle.std.specs.Prelude.{List, false};
ghost use Rattle.kept.specs.Prelude.{Event, IsReport, Kept, Report, effects_of};
ghost use Rattle.kept.specs.Reports.{IsKeptReport};
ghost use Rattle.kept.specs.StandsFor.{StandsFor};

/// A report of what is kept is the live report of the history that it stands for.
#[tactic(auto, using(crate::proofs::Reporting::report_is))]
pub fn kept_report()
    ensures { (k : Kept) (h : List Event) (r : Report) → StandsFor k h → IsKeptReport k r → IsReport false (effects_of h) r }
{}
