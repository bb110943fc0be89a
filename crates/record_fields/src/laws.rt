//! What is proved of formats, each put together from the formats of its parts.
//!
//! A format that is `Exact` is read exactly: what is spelled is read again, whatever follows, and no other bytes spell
//! it. One that `Places` damage tells the right place: up to there the bytes are whole fields of a legal value, and
//! with no legal value do they agree in whole fields any further.

ghost use Rattle.std.specs.Prelude.{◌≡◌, ◌≤◌, ◌≢◌, ◌++◌, List, ℕ, Bool, true, Option, Some, Err, ◌+◌, length, take};
ghost use Rattle.record_fields.specs.Formats.{number, number_within, text, truth, nothing, standing, tested, followed, ◌⊗◌, optional_or, Format, listed};
ghost use Rattle.record_fields.specs.declared.flaw.Flaw.TheVariants.{Illegal};
ghost use Rattle.record_fields.specs.Laws.{AreBytes, Exact, IsField, Places};
ghost use Rattle.record_fields.specs.Writers.{Writes};

use crate::fields::Field;

/// Numbers of each width.
pub fn numbers()
    ensures one { Places (number 1) }
    ensures two { Places (number 2) }
    ensures four { Places (number 4) }
    ensures eight { Places (number 8) }
    ensures field { (width : ℕ) → IsField (number width) }
{}

/// Numbers in a range.
pub fn numbers_within(low: u64, high: u64)
    requires { low ≤ high }
    ensures { Places (number_within 8 low high) }
{}

/// Truth values, texts, and a record without fields.
pub fn other_fields()
    ensures truth { Places truth }
    ensures text { Places text }
    ensures text_field { IsField text }
    ensures nothing { Places nothing }
{}

/// Two fields, one after the other.
pub fn pairs<F: Field, G: Field>()
    ensures exact { Exact F.format → Exact G.format → Exact (F.format ⊗ G.format) }
    ensures places { Places F.format → Places G.format → Places (F.format ⊗ G.format) }
{}

/// A record's format, of which the second part depends on the first one's value.
pub trait Dependent {
    /// What is read first.
    type First: Drop;

    /// What is read then.
    type Second: Drop;

    ghost first: { Format Self.First };

    ghost second: { Self.First → Format Self.Second };
}

/// Two fields of which the second one depends on the first.
pub fn dependent_pairs<D: Dependent>()
    ensures exact { Exact D.first → ((a : D.First) → Exact (D.second a)) → Exact (followed D.first D.second) }
    ensures places { Places D.first → ((a : D.First) → Places (D.second a)) → Places (followed D.first D.second) }
{}

/// A value that is spelled as another one, for which it stands.
pub trait Standing {
    /// What is spelled.
    type Spelled: Drop;

    /// What stands for it.
    type Value: Drop;

    ghost format: { Format Self.Spelled };

    ghost known: { Self.Spelled → Option Self.Value };

    ghost back: { Self.Value → Self.Spelled };

    ghost may: { Self.Value → Bool };
}

/// Values that stand for others, one to one. Damage is told at its place if it is so for these others, and each legal
/// one stands for a value; or if they are single fields, and some value is legal.
pub fn standing_values<S: Standing>()
    requires there { (x : S.Value) → S.may x ≡ true → S.known (S.back x) ≡ Some x }
    requires home { (a : S.Spelled) (x : S.Value) → S.known a ≡ Some x → (S.may x ≡ true) × (S.back x ≡ a) }
    ensures exact { Exact S.format → Exact (standing S.known S.back S.may S.format) }
    ensures places { Places S.format → ((a : S.Spelled) → S.format.legal a ≡ true → (x : S.Value) × (S.known a ≡ Some x)) → Places (standing S.known S.back S.may S.format) }
    ensures field { Exact S.format → IsField S.format → (x : S.Value) → S.may x ≡ true → S.format.legal (S.back x) ≡ true → Places (standing S.known S.back S.may S.format) }
{}

/// A value that has to pass a test.
pub trait Tested {
    /// What is tested.
    type Value: Drop;

    ghost format: { Format Self.Value };

    ghost test: { Self.Value → Bool };
}

/// Values that have to pass a test. Damage is told at its place if they are single fields, and some value is legal.
pub fn tested_values<T: Tested>()
    ensures exact { Exact T.format → Exact (tested T.test T.format) }
    ensures field { Exact T.format → IsField T.format → (x : T.Value) → T.format.legal x ≡ true → T.test x ≡ true → Places (tested T.test T.format) }
{}

/// Values that may be left out, unless they are required.
pub fn optional_values<F: Field>(required: bool)
    ensures exact { Exact F.format → Exact (optional_or required F.format) }
    ensures places { Places F.format → Places (optional_or required F.format) }
{}

/// Lists, after a count in two bytes and in four.
pub fn lists<F: Field>(least: u16, most: u16)
    requires { least ≤ most }
    ensures short { Exact F.format → Exact (listed (number_within 2 least most) F.format) }
    ensures long { Exact F.format → Exact (listed (number 4) F.format) }
    ensures short_places { Places F.format → Places (listed (number_within 2 least most) F.format) }
    ensures long_places { Places F.format → Places (listed (number 4) F.format) }
{}

/// A field that isn't legal stays so: whatever follows, no legal value's spelling begins with these bytes.
pub fn damage_stays<F: Field>()
    ensures { Exact F.format → (bytes more rest : List ℕ) (left : ℕ) (x : F.Value) → AreBytes bytes
        → F.format.read bytes ≡ Err (Illegal left) → F.format.legal x ≡ true
        → bytes ++ more ≢ F.format.spell x ++ rest }
{}

/// Bytes for which there is room are written whole.
pub fn whole_writes()
    ensures { (old new bytes : List ℕ) (at end : ℕ) → Writes old at new end bytes → at + length bytes ≤ length old
        → (end ≡ at + length bytes) × (take end new ≡ take at old ++ bytes) }
{}
