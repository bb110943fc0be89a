//! The length that limits a record, as the code has it. That of its body is `fsrm_model`'s.

ghost use Rattle.std.specs.Prelude.{◌≡◌};
ghost use Rattle.fsrm_journal.specs.Records.{longest_record};

use fsrm_model::limits::LONGEST_ENTRY;

/// The bytes of the longest record: its gate, the length of its body, and the longest body.
pub const LONGEST_RECORD: usize = LONGEST_ENTRY + 5;

/// This constant is the number that the definitions have.
pub fn limits()
    ensures longest_record { LONGEST_RECORD ≡ longest_record }
{}
