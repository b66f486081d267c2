//! Marks of the classes that trains touch at a step.

ghost use Rattle.std.specs.Prelude.{◌≡◌, ◌+◌, ◌<◌, ◌⊎◌, ◌↔◌, ℕ, All, IfOk, IsTrue, length};
ghost use Rattle.std.specs.Bool.{OnFalse};
ghost use Rattle.vss_lists.specs.Breaks.{HoldsOfEach};
ghost use Rattle.plan_checker.specs.ClashSearch.{AreAllApart, IsGoodTraffic};
ghost use Rattle.plan_checker.specs.ClassMarks.{AreEarlier, AreOfTrains, IsClassMarked, IsFreeFor, IsMarkedBy, IsOneTaken, IsTaken, IsTrainMarked, KeepsMarks, MarksOnly};

use crate::traffic::{Traffic, sweep_at};
use cell_net::DirCell;
use layout_rules::Classes;
use std::alloc::{AllocError, Global};

/// Which train touched a cell of a class last, and at which step.
#[derive(Clone, Copy, Debug)]
pub(crate) struct Mark {
    pub step: u32,
    pub train: u32,
}

/// No mark, for each of so many classes.
pub(crate) fn no_marks(alloc: Global, count: usize) -> Result<Vec<Option<Mark>>, AllocError>
    ensures len { IfOk result (λ marks. length marks.items ≡ count) }
    ensures none { IfOk result (λ marks. AreEarlier 0 marks.items) }
{
    vec![in alloc; None; count]
}

/// Whether all trains are apart at the step: no two touch one class of linked cells. Linear in the cells of
/// the sweeps at the step. The marks are those of earlier steps.
pub(crate) fn are_all_apart(traffic: &Traffic, step: u32, marks: &mut [Option<Mark>]) -> bool
    requires sound { IsGoodTraffic traffic.now }
    requires marks { length marks.old ≡ length traffic.now.inst.now.cells }
    requires earlier { AreEarlier step marks.old }
    ensures apart { IsTrue result ↔ AreAllApart traffic.now step }
    ensures earlier { AreEarlier (step + 1) marks.new }
{
    for train in 0..traffic.inst.train_count() {
        if !mark_train(traffic, step, train, marks) {
            return false;
        }
    }
    true
}

/// Marks the classes of the cells that the train touches at the step, as `mark_sweep` does.
fn mark_train(traffic: &Traffic, step: u32, train: u32, marks: &mut [Option<Mark>]) -> bool
    requires sound { IsGoodTraffic traffic.now }
    requires train { train < length traffic.now.runs.now }
    requires marks { length marks.old ≡ length traffic.now.inst.now.cells }
    requires trains { AreOfTrains traffic.now marks.old step train }
    requires earlier { AreEarlier (step + 1) marks.old }
    ensures marked { IsTrue result → IsTrainMarked traffic.now marks.new step train }
    ensures kept { KeepsMarks step marks.old marks.new }
    ensures trains { AreOfTrains traffic.now marks.new step (train + 1) }
    ensures earlier { AreEarlier (step + 1) marks.new }
    ensures clash { OnFalse result (¬ AreAllApart traffic.now step) }
{
    match sweep_at(&traffic.runs[train as usize], step) {
        None => true,
        Some(sweep) => mark_sweep(traffic.classes, sweep.cells.as_slice(), step, train, marks),
    }
}

/// Marks the classes of the cells for the train at the step, up to the first that another train
/// marked at this step; says whether there was none.
fn mark_sweep(
    classes: &Classes,
    cells: &[DirCell],
    step: u32,
    train: u32,
    marks: &mut [Option<Mark>],
) -> bool
    requires cells { All (λ d. d.cell.0 < length classes.now) cells.now }
    requires classes { All (λ k. k < length marks.old) classes.now }
    requires earlier { AreEarlier (step + 1) marks.old }
    ensures marked { IsTrue result → HoldsOfEach (IsClassMarked classes.now marks.new step train) cells.now }
    ensures kept { KeepsMarks step marks.old marks.new }
    ensures only { MarksOnly step train classes.now cells.now marks.old marks.new }
    ensures earlier { AreEarlier (step + 1) marks.new }
    ensures taken { OnFalse result (IsOneTaken classes.now marks.new step train cells.now) }
{
    for directed in cells {
        if !mark_class(marks, classes.class(directed.cell), step, train) {
            return false;
        }
    }
    true
}

/// Marks the class for the train at the step, unless another train did at this step; says whether it
/// is marked.
fn mark_class(marks: &mut [Option<Mark>], class: u32, step: u32, train: u32) -> bool
    requires within { class < length marks.old }
    requires earlier { AreEarlier (step + 1) marks.old }
    ensures marked { IsTrue result → IsMarkedBy marks.new step train class }
    ensures kept { KeepsMarks step marks.old marks.new }
    ensures only { (other place : ℕ) → IsMarkedBy marks.new step other place → IsMarkedBy marks.old step other place ⊎ ((other ≡ train) × (place ≡ class)) }
    ensures earlier { AreEarlier (step + 1) marks.new }
    ensures taken { OnFalse result (IsTaken marks.new step train class) }
{
    if !is_free_for(marks[class as usize], step, train) {
        return false;
    }
    marks[class as usize] = Some(Mark { step, train });
    true
}

fn is_free_for(mark: Option<Mark>, step: u32, train: u32) -> bool
    ensures { IsTrue result ↔ IsFreeFor mark step train }
{
    match mark {
        None => true,
        Some(mark) => mark.step != step || mark.train == train,
    }
}
