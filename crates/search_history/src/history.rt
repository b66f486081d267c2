//! The history of a search.
ghost use Rattle.std.specs.Prelude.{◌≡◌, ◌-◌, ◌^◌, ◌<◌, [], ◌∷◌, ◌++◌, OnOk, OnErr};
ghost use Rattle.derivation_log.specs.Steps.{derived_steps};
ghost use Rattle.sat_core.specs.Derivation.{adds as adds_clause, drops};
ghost use Rattle.sat_core.specs.Search.{gives, derives, log_of, adds_in};

use derivation_log::{Log, Step};
use sat_core::{ClauseId, Lit};
use std::alloc::{AllocError, Global};
use std::marker::Model;
use vss_lists::Items;

/// The units that a search was given and the steps that it has derived, each in its turn. Contracts see the list of these
/// events. Each call is of constant time but for the growth of its lists, and leaves all as it was after want of memory.
#[derive(Debug, Drop)]
pub struct History {
    // by turn: the unit that was given, or none where a step was derived
    turns: Vec<Option<Lit>>,
    log: Log,
    // how many of the steps add a clause
    count: u32,
}

impl Model for History {
    ghost use Rattle.std.specs.Prelude.{List};
    ghost use Rattle.derivation_log.specs.Steps.{derived_steps};
    ghost use Rattle.sat_core.specs.Search.{Event};
    ghost use Rattle.search_history.specs.Histories.{interleaved, IsHistory};

    ghost Value = { List Event };

    ghost view = { λ h. interleaved h.turns.items (derived_steps h.log.steps) };

    ghost invariant = { λ h. IsHistory h.turns.items (derived_steps h.log.steps) h.count };
}

impl History {
    /// Nothing was given or derived yet. Takes no memory.
    pub fn new(alloc: Global) -> History
        ensures { result ≡ [] }
    {
        History {
            turns: Vec::new(alloc),
            log: Log {
                steps: Items::new(alloc),
            },
            count: 0,
        }
    }

    /// A unit is given.
    pub fn give(&mut self, lit: Lit) -> Result<(), AllocError>
        ensures ok { OnOk result (self.new ≡ self.old ++ gives lit ∷ []) }
        ensures err { OnErr result (self.new ≡ self.old) }
    {
        self.turns.push(Some(lit))?;
        Ok(())
    }

    /// A step adds a clause.
    pub fn add(
        &mut self,
        id: ClauseId,
        lits: Items<Lit>,
        hints: Items<ClauseId>,
    ) -> Result<(), AllocError>
        requires counted { adds_in (log_of self.old) < 2 ^ 32 - 1 }
        ensures ok { OnOk result (self.new ≡ self.old ++ derives (adds_clause id lits hints) ∷ []) }
        ensures err { OnErr result (self.new ≡ self.old) }
    {
        self.turns.reserve(1)?;
        self.log.steps.push(Step::Add { id, lits, hints })?;
        self.turns.push_reserved(None);
        self.count += 1;
        Ok(())
    }

    /// A step drops the clauses with these numbers.
    pub fn drop_clauses(&mut self, ids: Items<ClauseId>) -> Result<(), AllocError>
        ensures ok { OnOk result (self.new ≡ self.old ++ derives (drops ids) ∷ []) }
        ensures err { OnErr result (self.new ≡ self.old) }
    {
        self.turns.reserve(1)?;
        self.log.steps.push(Step::Drop { ids })?;
        self.turns.push_reserved(None);
        Ok(())
    }

    /// How many of the steps add a clause.
    pub fn adds(&self) -> u32
        ensures { result ≡ adds_in (log_of self.now) }
    {
        self.count
    }

    /// The steps, in order.
    pub fn log(&self) -> &Log
        ensures { derived_steps result.now.steps ≡ log_of self.now }
    {
        &self.log
    }

    /// The steps alone. Takes no memory.
    pub fn into_log(self) -> Log
        ensures { derived_steps result.steps ≡ log_of self }
    {
        let History {
            turns: _,
            log,
            count: _,
        } = self;
        log
    }
}
