//! Laws of the definitions, and worked examples.

ghost use Rattle.notice_text.specs.Expanding.{macros_apart, macros_expand, nothing_expands, others_stay};
ghost use Rattle.notice_text.specs.Named.{notices_are_named};
ghost use Rattle.notice_text.specs.WorkedNotices.{before, expanded, ordered};

/// What a text expands to, front by front.
pub fn expansion()
    ensures nothing { nothing_expands }
    ensures macros { macros_expand }
    ensures others { others_stay }
    ensures apart { macros_apart }
{}

/// What the notices of a store name is there.
pub fn named()
    ensures { notices_are_named }
{}

/// The outbox after worked scripts.
pub fn worked_notices()
    ensures expanded { expanded }
    ensures before { before }
    ensures ordered { ordered }
{}
