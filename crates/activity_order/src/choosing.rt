//! The order beside a trail: each open variable waits.
ghost use Rattle.std.specs.Prelude.{◌≡◌, ◌-◌, ◌≤◌, ◌<◌, All, MatchOption, length, min, true, false, slice_index_or};
ghost use Rattle.search_trail.specs.Trails.{IsCutBack, decided};
ghost use Rattle.activity_order.specs.Choices.{OpenOnesWait, IsNextDecision, NoneIsOpen};

use crate::order::ActivityOrder;
use sat_core::Lit;
use search_trail::{Trail, Truth};

/// Decides the most active open variable false; none where no variable is open.
pub fn decide_next(order: &mut ActivityOrder, trail: &mut Trail) -> Option<Lit>
    requires waiting { OpenOnesWait order.old trail.old }
    ensures waiting { OpenOnesWait order.new trail.new }
    ensures scores { order.new.scores ≡ order.old.scores }
    ensures step { order.new.step ≡ order.old.step }
    ensures value { MatchOption result (NoneIsOpen trail.old × (trail.new ≡ trail.old)) (λ lit. IsNextDecision order.old.scores trail.old lit × (trail.new ≡ decided trail.old lit)) }
{
    // for the proof alone
    let _len = trail.len();
    'waiting: while let Some(var) = order.pop() {
        let lit = Lit {
            var,
            positive: false,
        };
        match trail.value(lit) {
            Truth::Open => {
                trail.decide(lit);
                return Some(lit);
            }
            Truth::Yes => {}
            Truth::No => {}
        }
    }
    None
}

/// Goes back to the end of a level, as the trail does: what is open again waits. Linear in the literals that go, and each
/// takes a time logarithmic in those that wait.
pub fn go_back(order: &mut ActivityOrder, trail: &mut Trail, level: u32)
    requires waiting { OpenOnesWait order.old trail.old }
    requires reached { level ≤ trail.old.present }
    ensures waiting { OpenOnesWait order.new trail.new }
    ensures scores { order.new.scores ≡ order.old.scores }
    ensures step { order.new.step ≡ order.old.step }
    ensures vars { trail.new.vars ≡ trail.old.vars }
    ensures cut { IsCutBack level trail.old.entries trail.new.entries }
    ensures read { trail.new.read ≡ min trail.old.read (length trail.new.entries) }
    ensures now { trail.new.present ≡ level }
{
    put_above(order, trail, level);
    trail.back_to(level);
}

/// The variables of the literals above a level wait from now on.
fn put_above(order: &mut ActivityOrder, trail: &Trail, level: u32)
    requires waiting { OpenOnesWait order.old trail.now }
    ensures waiting { OpenOnesWait order.new trail.now }
    ensures scores { order.new.scores ≡ order.old.scores }
    ensures step { order.new.step ≡ order.old.step }
    ensures back { All (λ e. level < e.level → slice_index_or order.new.waits (e.lit.var.0 - 1) false ≡ true) trail.now.entries }
{
    let mut place = trail.len();
    'leaving: while place > 0 {
        place -= 1;
        let lit = trail.at(place);
        if trail.level(lit.var) <= level {
            return;
        }
        order.put_back(lit.var);
    }
}
