//! Laws of walks, which a call hands to its caller's proof.
ghost use Rattle.std.specs.Prelude.{List};
ghost use Rattle.cell_net.specs.declared.ids.CandidateId.{CandidateId};
ghost use Rattle.cell_net.specs.declared.ids.CellId.{CellId};
ghost use Rattle.cell_net.specs.declared.parts.InstanceParts.{InstanceParts};
ghost use Rattle.gap_clauses.specs.Gaps.{AreGaps};
ghost use Rattle.gap_clauses.specs.Laws.{AreListedOnce, CandidatesSeparate, CutSeparates};

/// Two cells of a section are separated under borders exactly where each walk between them has a
/// border among its nodes. A call does nothing; it gives its caller's proof this law.
pub fn separated_where_cut()
    ensures { (p : InstanceParts) (borders : List CandidateId) → CutSeparates p borders }
{}

/// The walks of a pair are one list. A call does nothing; it gives its caller's proof this law.
pub fn walks_are_unique()
    ensures { (p : InstanceParts) (e f : CellId) → AreListedOnce p e f }
{}

/// Two cells of a section are separated under borders exactly where each walk between them has a
/// border among its candidates. A call does nothing; it gives its caller's proof this law.
pub fn separated_where_candidates_cut()
    ensures { (p : InstanceParts) (borders : List CandidateId) (gaps : List (List (List (List CandidateId)))) → AreGaps p gaps → CandidatesSeparate p borders gaps }
{}
