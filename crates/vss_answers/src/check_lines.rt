//! The printed lines of the checker of logs.

ghost use Rattle.std.specs.Prelude.{◌≡◌};
ghost use Rattle.vss_io.specs.Written.{Prints};
ghost use Rattle.vss_answers.specs.CheckTexts.{step_fault_word, proved_text, not_proved_text};

use derivation_log::Bound;
use itoa::Buffer;
use sat_core::StepFault;
use vss_io::{Sink, SinkFault, print_line};

/// Prints of which bound the formula is refuted.
pub fn print_proved<K: Sink>(bound: Bound, out: &mut K) -> Result<(), SinkFault>
    ensures { Prints (K.shown out.old) (K.shown out.new) (proved_text bound) result }
{
    match bound {
        Bound::Given => print_line(&[b"proved given"], out),
        Bound::AtMost(most) => print_line(
            &[b"proved most ", Buffer::new().format(most).as_bytes()],
            out,
        ),
    }
}

/// Prints at which line of the report the log goes wrong, and why.
pub fn print_not_proved<'a, K: Sink>(line: u64, why: &'a [u8], out: &mut K) -> Result<(), SinkFault>
    ensures { Prints (K.shown out.old) (K.shown out.new) (not_proved_text line why.now) result }
{
    let mut digits = Buffer::new();
    let line = digits.format(line).as_bytes();
    print_line(&[b"not proved ", line, b" ", why], out)
}

/// The word for why a step isn't accepted.
pub fn word_of_step_fault(step_fault: StepFault) -> &'static [u8]
    ensures { result.now ≡ step_fault_word step_fault }
{
    match step_fault {
        StepFault::IdOrder => b"IdOrder",
        StepFault::UnknownVariable => b"UnknownVariable",
        StepFault::Twofold => b"Twofold",
        StepFault::UnknownClause => b"UnknownClause",
        StepFault::HintNotUnit => b"HintNotUnit",
        StepFault::NoConflict => b"NoConflict",
        StepFault::HintsAfterConflict => b"HintsAfterConflict",
        StepFault::Memory => b"",
    }
}
