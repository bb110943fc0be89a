//! What holds of the definitions.

ghost use Rattle.program_words.specs.Worked.{new_stores, sizes_out_of_range, groups, numbers, options, outboxes, works, expires, ticks, other_words, no_modes};

/// What some words ask for.
pub fn worked_words()
    ensures new_stores { new_stores }
    ensures sizes { sizes_out_of_range }
    ensures groups { groups }
    ensures numbers { numbers }
    ensures options { options }
    ensures outboxes { outboxes }
    ensures works { works }
    ensures expires { expires }
    ensures ticks { ticks }
    ensures other_words { other_words }
    ensures no_modes { no_modes }
{}
