//! The line of a step, printed without memory.
ghost use Rattle.std.specs.Prelude.{◌++◌};
ghost use Rattle.vss_io.specs.Line.{line};
ghost use Rattle.vss_io.specs.Written.{Prints, PrintsAllBut};
ghost use Rattle.derivation_log.specs.Text.{step_text, clause_text, drop_text, list_text};

use crate::number::add_number;
use crate::step::Step;
use crate::word::Word;
use sat_core::{ClauseId, Lit};
use vss_io::{LineBuf, Sink, SinkFault};

/// Puts the line of the step, in pieces of 4,096 bytes and a rest. Takes no memory; linear in the literals and hints.
pub fn write_step<K: Sink>(step: &Step, out: &mut K) -> Result<(), SinkFault>
    ensures { Prints (K.shown out.old) (K.shown out.new) (line (step_text step.now)) result }
{
    let mut text = LineBuf::new();
    add_step(step, &mut text, out)?;
    text.finish(out)
}

/// Adds the step's text to a line.
fn add_step<K: Sink>(step: &Step, text: &mut LineBuf, out: &mut K) -> Result<(), SinkFault>
    ensures { PrintsAllBut (K.shown out.old) (K.shown out.new) text.new (text.old ++ step_text step.now) result }
{
    match step {
        Step::Add { id, lits, hints } => add_clause(
            *id,
            lits.as_slice(),
            hints.as_slice(),
            text,
            out,
        ),
        Step::Drop { ids } => add_drop(ids.as_slice(), text, out),
    }
}

/// Adds the text of a step that adds a clause.
fn add_clause<K: Sink>(
    id: ClauseId,
    lits: &[Lit],
    hints: &[ClauseId],
    text: &mut LineBuf,
    out: &mut K,
) -> Result<(), SinkFault>
    ensures { PrintsAllBut (K.shown out.old) (K.shown out.new) text.new (text.old ++ clause_text id lits.now hints.now) result }
{
    text.add(b"a ", out)?;
    add_number(id.0, text, out)?;
    add_list(lits, text, out)?;
    text.add(b" ", out)?;
    add_list(hints, text, out)
}

/// Adds the text of a step that drops clauses.
fn add_drop<K: Sink>(ids: &[ClauseId], text: &mut LineBuf, out: &mut K) -> Result<(), SinkFault>
    ensures { PrintsAllBut (K.shown out.old) (K.shown out.new) text.new (text.old ++ drop_text ids.now) result }
{
    text.add(b"d ", out)?;
    add_list(ids, text, out)
}

/// Adds the words, each with a blank behind it, and the 0 behind them.
fn add_list<W: Word, K: Sink>(words: &[W], text: &mut LineBuf, out: &mut K) -> Result<(), SinkFault>
    ensures { PrintsAllBut (K.shown out.old) (K.shown out.new) text.new (text.old ++ list_text W.spelled words.now) result }
{
    for word in words {
        word.add(text, out)?;
    }
    text.add(b"0", out)
}
