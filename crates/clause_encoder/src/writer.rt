//! The writer: it takes clauses one after another, counts them, and keeps them if asked to.
ghost use Rattle.std.specs.Prelude.{◌≡◌, ◌+◌, ◌-◌, ◌*◌, ◌^◌, ◌<◌, ◌≤◌, ◌++◌, ◌∷◌, [], List, true, false, length, OnOk, OnErr, IfErr, IfOk};
ghost use Rattle.std.specs.Prelude.{All, sum_by};
ghost use Rattle.sat_core.specs.declared.literal.Lit.{Lit};
ghost use Rattle.sat_core.specs.Clauses.{IsOver};
ghost use Rattle.border_counter.specs.Counter.{sum_to, counter_clauses};
ghost use Rattle.clause_encoder.specs.Writing.{AreClauses, Writing, Takes, Adds, IsCause, literal_count};

use border_counter::{CounterSize, add_counter, counter_size};
use cell_net::CandidateId;
use sat_core::{Formula, Lit};
use std::alloc::{AllocError, Global};
use std::marker::Model;

/// Why clauses were not taken: there are too many, or for want of memory.
#[derive(Clone, Copy, Debug, PartialEq, Eq)]
pub enum WriteFault {
    Full,
    Memory,
}

/// Takes clauses one after another: counts them and their literals and, if asked to, keeps them.
#[derive(Debug, Drop)]
pub struct ClauseWriter {
    formula: Formula,
    keeps: bool,
    most: u32,
    count: u32,
    lits: u64,
    // the clause that is being put together, and the candidates of the walk that it is put together from
    pub(crate) clause: Vec<Lit>,
    pub(crate) candidates: Vec<CandidateId>,
}

impl Model for ClauseWriter {
    ghost use Rattle.clause_encoder.specs.Writing.{Writing, IsWriter};

    ghost Value = { Writing };

    ghost view = { λ w. record { vars = w.formula.vars; most = w.most; count = w.count; lits = w.lits; keeps = w.keeps; kept = w.formula.clauses; open_lits = w.clause.items } };

    ghost invariant = { λ w. IsWriter w.most w.count w.lits w.keeps w.formula };
}

impl ClauseWriter {
    /// A writer that counts, and keeps the clauses if asked to, with room for so many.
    pub fn new(
        alloc: Global,
        vars: u32,
        most: u32,
        lits: u64,
        keeps: bool,
    ) -> Result<ClauseWriter, AllocError>
        requires { most < 2 ^ 32 - 1 }
        ensures { IfOk result (λ w. w ≡ record { vars = vars; most = most; count = 0; lits = 0; keeps = keeps; kept = []; open_lits = [] }) }
    {
        let mut formula = Formula::new(alloc, vars);
        if keeps {
            formula.reserve(most as usize, lits as usize)?;
        }
        Ok(ClauseWriter {
            formula,
            keeps,
            most,
            count: 0,
            lits: 0,
            clause: Vec::new(alloc),
            candidates: Vec::new(alloc),
        })
    }

    /// Whether it keeps the clauses that it takes.
    pub fn keeps(&self) -> bool
        ensures { result ≡ self.now.keeps }
    {
        self.keeps
    }

    /// How many clauses it has taken.
    pub fn clause_count(&self) -> u32
        ensures value { result ≡ self.now.count }
        ensures within { self.now.count ≤ self.now.most }
    {
        self.count
    }

    /// How many literals these have together.
    pub fn literal_count(&self) -> u64
        ensures { result ≡ self.now.lits }
    {
        self.lits
    }

    /// The clauses that it has kept.
    pub fn into_formula(self) -> Formula
        ensures vars { result.vars ≡ self.vars }
        ensures clauses { result.clauses ≡ self.kept }
    {
        self.formula
    }

    /// Begins a clause.
    pub fn start(&mut self)
        ensures { self.new ≡ record self.old { open_lits = [] } }
    {
        self.clause.clear();
    }

    /// Puts a literal to the clause.
    pub fn add(&mut self, lit: Lit) -> Result<(), WriteFault>
        ensures ok { OnOk result (Adds self.old (lit ∷ []) self.new) }
        ensures err { IfErr result (λ fault. fault ≡ WriteFault.Memory) }
    {
        match self.clause.push(lit) {
            Ok(()) => Ok(()),
            Err(_) => Err(WriteFault::Memory),
        }
    }

    /// Takes the clause that was put together.
    #[tactic(auto, using(crate::proofs::WritingLemmas::takes_one), unfolding(crate::specs::Writing::IsCause))]
    pub fn finish(&mut self) -> Result<(), WriteFault>
        requires { AreClauses self.old.vars (self.old.open_lits ∷ []) }
        ensures ok { OnOk result (Takes self.old (self.old.open_lits ∷ []) self.new) }
        ensures err { IfErr result (IsCause self.old (self.old.open_lits ∷ [])) }
    {
        if self.count == self.most {
            return Err(WriteFault::Full);
        }
        let _vars = self.formula.vars();
        let total = self.lits + self.clause.len() as u64;
        match keep(&mut self.formula, self.keeps, &self.clause) {
            Ok(()) => {}
            Err(_) => return Err(WriteFault::Memory),
        }
        self.count += 1;
        self.lits = total;
        Ok(())
    }

    /// Takes clauses that it only counts: so many, with so many literals together.
    #[tactic(auto, unfolding(crate::specs::Writing::IsCause))]
    pub fn take_counted(&mut self, clauses: u32, lits: u64) -> Result<(), WriteFault>
        requires counts { self.old.keeps ≡ false }
        requires lits { lits ≤ clauses * 2 ^ 32 }
        ensures ok { (list : List (List Lit)) → length list ≡ clauses → literal_count list ≡ lits → OnOk result (Takes self.old list self.new) }
        ensures err { (list : List (List Lit)) → length list ≡ clauses → IfErr result (IsCause self.old list) }
    {
        if clauses > self.most - self.count {
            return Err(WriteFault::Full);
        }
        self.count += clauses;
        self.lits += lits;
        Ok(())
    }

    /// Takes the clauses of the counter of these inputs, whose variables are the numbers from `first` on.
    #[tactic(auto, unfolding(crate::specs::Writing::IsCause))]
    pub fn take_counter(&mut self, inputs: &[Lit], first: u32) -> Result<(), WriteFault>
        requires inputs { All (IsOver (first - 1)) inputs.now }
        requires variables { first + sum_to (length inputs.now) ≤ self.old.vars + 1 }
        requires few { length inputs.now ≤ 512 }
        ensures ok { OnOk result (Takes self.old (counter_clauses inputs.now first (length inputs.now)) self.new) }
        ensures err { IfErr result (IsCause self.old (counter_clauses inputs.now first (length inputs.now))) }
    {
        let size = counter_size(inputs.len() as u32);
        if size.clauses > u64::from(self.most - self.count) {
            return Err(WriteFault::Full);
        }
        let count = self.count + size.clauses as u32;
        let lits = self.lits + size.lits;
        match keep_counter(&mut self.formula, self.keeps, inputs, first, size) {
            Ok(()) => {}
            Err(_) => return Err(WriteFault::Memory),
        }
        self.count = count;
        self.lits = lits;
        Ok(())
    }

    /// Takes a clause.
    #[tactic(auto, using(crate::proofs::WritingLemmas::takes_one), unfolding(crate::specs::Writing::IsCause))]
    pub fn take(&mut self, lits: &[Lit]) -> Result<(), WriteFault>
        requires { AreClauses self.old.vars (lits.now ∷ []) }
        ensures ok { OnOk result (Takes self.old (lits.now ∷ []) self.new) }
        ensures err { IfErr result (IsCause self.old (lits.now ∷ [])) }
    {
        if self.count == self.most {
            return Err(WriteFault::Full);
        }
        let _vars = self.formula.vars();
        let total = self.lits + lits.len() as u64;
        match keep(&mut self.formula, self.keeps, lits) {
            Ok(()) => {}
            Err(_) => return Err(WriteFault::Memory),
        }
        self.count += 1;
        self.lits = total;
        Ok(())
    }
}

// Appends the clause, if the formula is to keep it.
#[tactic(auto, using(crate::proofs::WritingLemmas::one_clause))]
fn keep(formula: &mut Formula, keeps: bool, lits: &[Lit]) -> Result<(), AllocError>
    requires clause { AreClauses formula.old.vars (lits.now ∷ []) }
    requires few { keeps ≡ true → length formula.old.clauses < 2 ^ 32 - 1 }
    ensures vars { formula.new.vars ≡ formula.old.vars }
    ensures err { OnErr result (formula.new.clauses ≡ formula.old.clauses) }
    ensures kept { keeps ≡ true → OnOk result (formula.new.clauses ≡ formula.old.clauses ++ lits.now ∷ []) }
{
    if keeps { formula.push(lits) } else { Ok(()) }
}

// Appends the counter's clauses, if the formula is to keep them.
fn keep_counter(
    formula: &mut Formula,
    keeps: bool,
    inputs: &[Lit],
    first: u32,
    size: CounterSize,
) -> Result<(), AllocError>
    requires inputs { All (IsOver (first - 1)) inputs.now }
    requires variables { first + sum_to (length inputs.now) ≤ formula.old.vars + 1 }
    requires clauses { length (counter_clauses inputs.now first (length inputs.now)) ≡ size.clauses }
    requires lits { sum_by length (counter_clauses inputs.now first (length inputs.now)) ≡ size.lits }
    requires numbered { keeps ≡ true → length formula.old.clauses + size.clauses < 2 ^ 32 }
    ensures vars { formula.new.vars ≡ formula.old.vars }
    ensures err { OnErr result (formula.new.clauses ≡ formula.old.clauses) }
    ensures kept { keeps ≡ true → OnOk result (formula.new.clauses ≡ formula.old.clauses ++ counter_clauses inputs.now first (length inputs.now)) }
{
    if keeps {
        formula.reserve(size.clauses as usize, size.lits as usize)?;
        add_counter(formula, inputs, first)?;
    }
    Ok(())
}
