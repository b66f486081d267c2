//! Where the variables of a list stand.
ghost use Rattle.std.specs.Prelude.{◌≡◌, ◌<◌, ◌≤◌, ◌+◌, true, length, Some, slice_get};
ghost use Rattle.border_counter.specs.Counter.{at_least_lit};
ghost use Rattle.clause_list.specs.Numbers.{border, sweep, run_ended, waits};
ghost use Rattle.clause_list.specs.WholeList.{train_at};
ghost use Rattle.clause_encoder.specs.Maps.{has_item, IsKeptMap};

use crate::at_least::at_least_number;
use crate::literals::is;
use crate::train::TrainNumbers;
use cell_net::{CandidateId, TrainId};
use sat_core::{ClauseId, Lit, Var};
use std::marker::Model;
use sweep_table::{SweepId, SweepTable};

/// The variables of a list of clauses, by what they mean. No call takes memory.
#[derive(Debug, Drop)]
pub struct VarMap {
    pub(crate) candidates: u32,
    pub(crate) trains: Vec<TrainNumbers>,
    pub(crate) tables: Vec<SweepTable>,
    /// Whether the list has the counter.
    pub(crate) counts: bool,
    /// The first variable of the counter.
    pub(crate) first_of_count: u32,
    /// How many clauses stand before those of the counter's order.
    pub(crate) before_order: u32,
}

impl Model for VarMap {
    ghost use Rattle.clause_encoder.specs.Maps.{MapParts, IsKeptMap};

    ghost Value = { MapParts };

    ghost view = { λ m. record { candidates = m.candidates; trains = m.trains.items; tables = m.tables.items; counts = m.counts; first_of_count = m.first_of_count; before_order = m.before_order } };

    ghost invariant = { λ m. IsKeptMap (record { candidates = m.candidates; trains = m.trains.items; tables = m.tables.items; counts = m.counts; first_of_count = m.first_of_count; before_order = m.before_order }) };
}

impl VarMap {
    /// How many candidates there are.
    pub fn candidate_count(&self) -> u32
        ensures value { result ≡ self.now.candidates }
        ensures few { self.now.candidates ≤ 512 }
    {
        self.candidates
    }

    /// How many trains there are.
    pub fn train_count(&self) -> usize
        ensures { result ≡ length self.now.trains }
    {
        self.trains.len()
    }

    /// The variable that a border stands at the candidate.
    pub fn border(&self, c: CandidateId) -> Var
        requires { c.0 < self.now.candidates }
        ensures { result.0 ≡ border c.0 }
    {
        let _count = self.candidate_count();
        Var(c.0 + 1)
    }

    /// The numbers of the train's variables.
    pub fn numbers(&self, a: TrainId) -> &TrainNumbers
        requires { a.0 < length self.now.trains }
        ensures { result.now ≡ train_at self.now.trains a.0 }
    {
        &self.trains[a.0 as usize]
    }

    /// Whether the train can have the item at the step.
    pub fn in_cone(&self, a: TrainId, t: u32, w: SweepId) -> bool
        requires { a.0 < length self.now.trains }
        ensures { result ≡ has_item (train_at self.now.trains a.0) t w.0 }
    {
        let numbers = self.numbers(a);
        if t < numbers.start() || numbers.by() < t {
            return false;
        }
        numbers.sweep(t, w.0).is_some()
    }

    /// The variable that the train has the item at the step; logarithmic in the cone.
    pub fn sweep(&self, a: TrainId, t: u32, w: SweepId) -> Var
        requires train { a.0 < length self.now.trains }
        requires in_cone { has_item (train_at self.now.trains a.0) t w.0 ≡ true }
        ensures { result.0 ≡ sweep (train_at self.now.trains a.0) t w.0 }
    {
        match self.numbers(a).sweep(t, w.0) {
            Some(number) => Var(number),
            // an item of the cone has a number
            None => Var(0),
        }
    }

    /// The variable that the train's run ended before the step.
    pub fn ended(&self, a: TrainId, t: u32) -> Var
        requires train { a.0 < length self.now.trains }
        requires after { (train_at self.now.trains a.0).start < t }
        requires before { t ≤ (train_at self.now.trains a.0).by }
        ensures { result.0 ≡ run_ended (train_at self.now.trains a.0) t }
    {
        Var(self.numbers(a).ended(t))
    }

    /// The variable that the train's run begins after the step.
    pub fn waits(&self, a: TrainId, t: u32) -> Var
        requires train { a.0 < length self.now.trains }
        requires after { (train_at self.now.trains a.0).start ≤ t }
        requires before { t < (train_at self.now.trains a.0).latest }
        ensures { result.0 ≡ waits (train_at self.now.trains a.0) t }
    {
        Var(self.numbers(a).waits(t))
    }

    /// The tables of the trains, where the map keeps them: in train order, or none at all.
    pub fn tables(&self) -> &[SweepTable]
        ensures { result.now ≡ self.now.tables }
    {
        self.tables.as_slice()
    }

    /// The table of the train.
    pub fn table(&self, a: TrainId) -> &SweepTable
        requires { a.0 < length self.now.tables }
        ensures { slice_get self.now.tables a.0 ≡ Some result.now }
    {
        &self.tables[a.0 as usize]
    }

    /// The literal that at least j borders stand, for j from 1 to their number, where the list has the counter.
    pub fn at_least(&self, j: u32) -> Lit
        requires counts { self.now.counts ≡ true }
        requires some { 1 ≤ j }
        requires most { j ≤ self.now.candidates }
        ensures { result ≡ at_least_lit self.now.first_of_count self.now.candidates j }
    {
        is(at_least_number(self.first_of_count, self.candidates, j))
    }

    /// The number of the clause that at least j + 1 borders are at least j, for j from 1 to their number less one, where
    /// the list has the counter.
    pub fn order_clause(&self, j: u32) -> ClauseId
        requires counts { self.now.counts ≡ true }
        requires some { 1 ≤ j }
        requires most { j < self.now.candidates }
        ensures { result.0 ≡ self.now.before_order + j }
    {
        ClauseId(self.before_order + j)
    }

    /// The same, with these tables.
    pub(crate) fn keeping(self, tables: Vec<SweepTable>) -> VarMap
        ensures { result ≡ record self { tables = tables.items } }
    {
        VarMap {
            candidates: self.candidates,
            trains: self.trains,
            tables,
            counts: self.counts,
            first_of_count: self.first_of_count,
            before_order: self.before_order,
        }
    }
}
