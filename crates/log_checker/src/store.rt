//! The live clauses of a checker, by their numbers.

ghost use Rattle.std.specs.Prelude.{◌≡◌, ◌<◌, ◌+◌, ◌++◌, Some, IfSome, IfOk, IfErr, OnOk, OnErr, [], length, slice_get};
ghost use Rattle.std.specs.Option.{option_copied};
ghost use Rattle.sat_core.specs.Clauses.{IsClause};
ghost use Rattle.sat_core.specs.Hints.{clause_of};
ghost use Rattle.sat_core.specs.Derivation.{database_of, adds, drops, after, IsAcceptedDrop};

use crate::dropped::Dropped;
use crate::drops::drop_all;
use crate::numbers::place_of;
use sat_core::{ClauseId, Formula, Lit, StepFault};
use std::alloc::AllocError;
use std::marker::Model;

/// The live clauses by their numbers: those of the formula, which is left as it came, and those that steps added, in a
/// formula of their own.
#[derive(Debug, Drop)]
pub(crate) struct ClauseStore {
    formula: Formula,
    // the clauses that steps added
    log: Formula,
    // their numbers
    numbers: Vec<ClauseId>,
    last: u32,
    dropped: Dropped,
}

impl Model for ClauseStore {
    ghost use Rattle.std.specs.Prelude.{◌++◌};
    ghost use Rattle.sat_core.specs.Derivation.{ClauseDatabase};
    ghost use Rattle.log_checker.specs.Stored.{live_of, number_at, is_dropped, AreStored};

    ghost Value = { ClauseDatabase };

    ghost view = { λ s. record { vars = s.formula.vars; last = s.last; live = live_of (number_at s.dropped.own s.numbers.items) (is_dropped s.dropped) (s.formula.clauses ++ s.log.clauses) } };

    ghost invariant = { λ s. AreStored s.formula.vars s.log.vars s.dropped s.numbers.items s.last (s.formula.clauses ++ s.log.clauses) };
}

impl ClauseStore {
    /// The clauses of the formula are live. Takes a byte for each.
    pub(crate) fn new(formula: Formula) -> Result<ClauseStore, AllocError>
        ensures { IfOk result (λ store. store ≡ database_of formula.vars formula.clauses) }
    {
        let alloc = formula.allocator();
        let own = formula.len();
        let vars = formula.vars();
        let dropped = Dropped::new(alloc, own as usize)?;
        Ok(ClauseStore {
            formula,
            log: Formula::new(alloc, vars),
            numbers: Vec::new(alloc),
            last: own,
            dropped,
        })
    }

    pub(crate) fn vars(&self) -> u32
        ensures { result ≡ self.now.vars }
    {
        self.formula.vars()
    }

    /// The greatest number so far.
    pub(crate) fn last(&self) -> u32
        ensures { result ≡ self.now.last }
    {
        self.last
    }

    /// The literals of the live clause with that number, if there is one.
    pub(crate) fn lits(&self, id: ClauseId) -> Option<&[Lit]>
        ensures lookup { option_copied result ≡ clause_of self.now.live id }
        ensures clause { IfSome result (λ lits. IsClause self.now.vars lits.now) }
    {
        match place_of(self.dropped.own, self.numbers.as_slice(), self.last, id) {
            None => None,
            Some(place) => {
                if self.dropped.contains(place) {
                    None
                } else {
                    Some(clause_at(&self.formula, &self.log, place))
                }
            }
        }
    }

    /// Makes one more clause live. Takes memory only where no room is at hand, and leaves all as it was where there is
    /// none.
    pub(crate) fn add(&mut self, id: ClauseId, lits: &[Lit]) -> Result<(), AllocError>
        requires in_order { self.old.last < id.0 }
        requires clause { IsClause self.old.vars lits.now }
        ensures ok { OnOk result (self.new ≡ after self.old (adds id lits.now [])) }
        ensures err { OnErr result (self.new ≡ self.old) }
    {
        self.numbers.reserve(1)?;
        self.dropped.flags.reserve(1)?;
        self.log.push(lits)?;
        self.numbers.push_reserved(id);
        self.dropped.flags.push_reserved(false);
        self.last = id.0;
        Ok(())
    }

    /// Ends the clauses with these numbers, or none of them where some isn't live or stands twice. Takes no memory.
    pub(crate) fn end(&mut self, ids: &[ClauseId]) -> Result<(), StepFault>
        ensures accepted { OnOk result (IsAcceptedDrop self.old ids.now) }
        ensures ok { OnOk result (self.new ≡ after self.old (drops ids.now)) }
        ensures unknown { OnErr result (¬ IsAcceptedDrop self.old ids.now) }
        ensures fault { IfErr result (λ fault. fault ≡ StepFault.UnknownClause) }
        ensures err { OnErr result (self.new ≡ self.old) }
    {
        drop_all(self.numbers.as_slice(), self.last, &mut self.dropped, ids)
    }
}

/// The clause at that place, counted from 0, where the log's clauses stand behind those of the formula.
fn clause_at<'a>(formula: &'a Formula, log: &'a Formula, place: usize) -> &'a [Lit]
    requires same_variables { log.now.vars ≡ formula.now.vars }
    requires within { place < length formula.now.clauses + length log.now.clauses }
    ensures lits { slice_get (formula.now.clauses ++ log.now.clauses) place ≡ Some result.now }
    ensures clause { IsClause formula.now.vars result.now }
{
    let own = formula.len() as usize;
    let added = log.len() as usize;
    if place < own {
        formula.clause(ClauseId(place as u32 + 1))
    } else {
        prove!(place - own < added);
        log.clause(ClauseId((place - own) as u32 + 1))
    }
}
