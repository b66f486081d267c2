//! Laws of the definitions, for the proofs of callers.
ghost use Rattle.std.specs.Prelude.{ℕ, List};
ghost use Rattle.cell_net.specs.Labelled.{AreLabels};
ghost use Rattle.cell_net.specs.declared.labels.Labels.{Labels};
ghost use Rattle.vss_report.specs.DesignFaults.{HasOneDesignReading};
ghost use Rattle.vss_report.specs.Refutations.{HasOneRefutationReading};
ghost use Rattle.vss_report.specs.Written.{HasShortNames, IsReportOutcome, IsDesignReadBack, IsRefutationReadBack};
ghost use Rattle.vss_report.specs.declared.outcome.Outcome.{Outcome};

/// The design of a text for a scene is read in one way, or has one fault. A call does nothing; it gives its caller's
/// proof this law.
pub fn design_readings_are_one()
    ensures { (labels : Labels) (bytes : List ℕ) → AreLabels labels → HasOneDesignReading labels bytes }
{}

/// What was written of an outcome states the design of that outcome: of one that has no empty run and no empty sweep, with
/// all numbers in range. A call does nothing; it gives its caller's proof this law.
pub fn written_designs_are_read_back()
    ensures { (labels : Labels) (o : Outcome) → AreLabels labels → HasShortNames labels → IsReportOutcome labels o → IsDesignReadBack labels o }
{}

/// The refutation of a text is read in one way, or has one fault. A call does nothing; it gives its caller's proof this law.
pub fn refutation_readings_are_one()
    ensures { (bytes : List ℕ) → HasOneRefutationReading bytes }
{}

/// The same of the refutation of the outcome. A call does nothing; it gives its caller's proof this law.
pub fn written_refutations_are_read_back()
    ensures { (labels : Labels) (o : Outcome) → AreLabels labels → HasShortNames labels → IsReportOutcome labels o → IsRefutationReadBack labels o }
{}
