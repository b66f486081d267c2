//! The clauses of borders: kept ones, or a given layout, and the gaps.
ghost use Rattle.std.specs.Prelude.{◌≡◌, ◌<◌, nat_eq, OnOk, IfErr};
ghost use Rattle.std.specs.List.{list_any};
ghost use Rattle.clause_list.specs.BorderClauses.{kept_clauses, given_clauses};
ghost use Rattle.clause_list.specs.Orders.{AreOver};
ghost use Rattle.clause_encoder.specs.Writing.{AreClauses, Takes, IsCause};

use crate::literals::{is, is_not};
use crate::network::NetworkNumbers;
use crate::part::{Part, write_range};
use crate::writer::{ClauseWriter, WriteFault};
use cell_net::CandidateId;

/// Writes that the kept borders stand.
#[tactic(auto, unfolding(clause_list::specs::BorderClauses::kept_clauses))]
pub(crate) fn write_kept(net: &NetworkNumbers, writer: &mut ClauseWriter) -> Result<(), WriteFault>
    requires over { AreOver net.now net.now.kept }
    requires clauses { AreClauses writer.old.vars (kept_clauses net.now) }
    ensures ok { OnOk result (Takes writer.old (kept_clauses net.now) writer.new) }
    ensures err { IfErr result (IsCause writer.old (kept_clauses net.now)) }
{
    let _few = net.candidate_count();
    let kept = net.kept();
    for place in 0..kept.len() {
        match writer.take(&[is(kept[place].0 + 1)]) {
            Ok(()) => {}
            Err(fault) => return Err(fault),
        }
    }
    Ok(())
}

/// Writes that the borders are those of the layout.
#[tactic(auto, unfolding(clause_list::specs::BorderClauses::given_clauses))]
pub(crate) fn write_given(
    net: &NetworkNumbers,
    layout: &[CandidateId],
    writer: &mut ClauseWriter,
) -> Result<(), WriteFault>
    requires { AreClauses writer.old.vars (given_clauses net.now layout.now) }
    ensures ok { OnOk result (Takes writer.old (given_clauses net.now layout.now) writer.new) }
    ensures err { IfErr result (IsCause writer.old (given_clauses net.now layout.now)) }
{
    write_range(&Given { layout }, 0, net.candidate_count(), writer)
}

// by candidate
#[derive(Drop)]
struct Given<'a> {
    layout: &'a [CandidateId],
}

impl<'a> Part for Given<'a> {
    ghost use Rattle.std.specs.Prelude.{◌<◌, ◌∷◌, []};
    ghost use Rattle.clause_list.specs.BorderClauses.{given};

    ghost clauses = { λ p c. given p.layout.now c ∷ [] };

    ghost fits = { λ p place c. c < 512 };

    #[tactic(auto, unfolding(clause_list::specs::BorderClauses::given))]
    fn write(
        &self,
        _place: usize,
        candidate: u32,
        writer: &mut ClauseWriter,
    ) -> Result<(), WriteFault> {
        if has_border(self.layout, candidate) {
            writer.take(&[is(candidate + 1)])
        } else {
            writer.take(&[is_not(candidate + 1)])
        }
    }
}

// Whether the layout has a border at the candidate.
fn has_border(layout: &[CandidateId], candidate: u32) -> bool
    ensures { result ≡ list_any (λ b. nat_eq candidate b.0) layout.now }
{
    layout.iter().any(|border| candidate == border.0)
}
