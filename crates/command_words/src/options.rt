//! The options of the tools' commands: words of the form /Name:value, in any order.

ghost use Rattle.std.specs.Prelude.{◌≡◌, ◌∷◌, ◌++◌, true, false, List as Sequence, [], Option as Maybe};
ghost use Rattle.fsrm_model.specs.lines.ValueForms.{ValueForm, Value, value_from};
ghost use Rattle.fsrm_model.specs.lines.Options.{Key, Given, once, repeated, at_most, are_apart, options as options_of};
ghost use Rattle.command_words.specs.OptionWords.{option_word, ReadsValue, HoldsOnce, HoldsEach, Adds, AddsWord, ReadsGiven, IsRequired, in_keys};
ghost use Rattle.command_words.specs.Taking.{left, end, line_word};

use crate::fault::LineFault;
use crate::values::is_named;
use crate::words::{Word, Words};
use fsrm_model::{List, Refusal};
use std::alloc::Global;

/// The form of an option's value.
pub trait Form: Copy {
    type Value: Drop;

    ghost form: { Self → ValueForm };

    /// The value, if it is of this form's kind.
    ghost of: { Value → Maybe Self.Value };

    /// Reads a value from its text. The word that has it begins at this column.
    fn read(self, alloc: Global, column: u32, text: &str) -> Result<Self::Value, LineFault>
        ensures { ReadsValue of result (value_from (form self) column text.now) };
}

/// An option that may be given once. Its name has the slash, and not the colon.
#[derive(Clone, Copy)]
pub struct Once<F> {
    pub name: &'static str,
    pub form: F,
}

/// One that may be given any number of times.
#[derive(Clone, Copy)]
pub struct Repeated<F> {
    pub name: &'static str,
    pub form: F,
}

/// One that may be given so many times.
#[derive(Clone, Copy)]
pub struct AtMost<F> {
    pub name: &'static str,
    pub most: usize,
    pub form: F,
}

/// A word that gives an option, parted at its first colon.
#[derive(Clone, Copy)]
pub struct OptionWord<'a> {
    /// What stands before the colon, with the slash.
    pub name: &'a str,
    /// What stands after it.
    pub value: &'a str,
    /// Where the word begins in its line. It counts bytes from 1.
    pub column: u32,
}

/// Options that a command takes: one, or a pair of options or of pairs. A pair asks its first half first.
pub trait Options: Copy {
    /// The values of those that are given.
    type Values: Drop;

    ghost keys: { Self → Sequence Key };

    /// Whether these are the values of what a line has given so far.
    ghost holds: { Self → Self.Values → Sequence Given → Type 0 };

    /// The values if none of the options is given.
    fn none_given(self, alloc: Global) -> Self::Values
        ensures { holds self result [] };

    /// Adds the value of a word, if it gives one of these options, and tells whether it does. The word is refused if the
    /// option was given as often as it may be, or if the value hasn't its form.
    fn add(
        self,
        given: &mut Self::Values,
        alloc: Global,
        word: &OptionWord<'_>,
    ) -> Result<bool, LineFault>
        requires { are_apart (keys self) ≡ true }
        ensures { (before : Sequence Given) → holds self given.old before → Adds (holds self) result given.old given.new (keys self) word.now.name.now word.now.column word.now.value.now before };

    // The values stay if an option is given that is none of these.
    ghost kept: { (options : Self) (given : Self.Values) (before : Sequence Given) (next : Given) → in_keys (keys options) next.key ≡ false → holds options given before → holds options given (before ++ next ∷ []) };
}

impl<F: Form> Options for Once<F> {
    ghost use Rattle.command_words.specs.KeptLaws.{once_kept};

    type Values = Option<F::Value>;

    ghost keys = { λ o. once o.name.now (F.form o.form) ∷ [] };

    ghost holds = { λ o. HoldsOnce F.of (once o.name.now (F.form o.form)) };

    fn none_given(self, _alloc: Global) -> Option<F::Value> {
        None
    }

    fn add(
        self,
        given: &mut Option<F::Value>,
        alloc: Global,
        word: &OptionWord<'_>,
    ) -> Result<bool, LineFault> {
        if !is_named(self.name, word.name) {
            return Ok(false);
        }
        if given.is_some() {
            return Err(LineFault::bad_line(word.column));
        }
        *given = Some(self.form.read(alloc, word.column, word.value)?);
        Ok(true)
    }

    ghost kept = { λ o. once_kept F.of (once o.name.now (F.form o.form)) };
}

impl<F: Form> Options for Repeated<F> {
    ghost use Rattle.command_words.specs.KeptLaws.{each_kept};

    type Values = List<F::Value>;

    ghost keys = { λ o. repeated o.name.now (F.form o.form) ∷ [] };

    ghost holds = { λ o. HoldsEach F.of (repeated o.name.now (F.form o.form)) };

    fn none_given(self, alloc: Global) -> List<F::Value> {
        List::new(alloc)
    }

    fn add(
        self,
        given: &mut List<F::Value>,
        alloc: Global,
        word: &OptionWord<'_>,
    ) -> Result<bool, LineFault> {
        if !is_named(self.name, word.name) {
            return Ok(false);
        }
        given.push(self.form.read(alloc, word.column, word.value)?)?;
        Ok(true)
    }

    ghost kept = { λ o. each_kept F.of (repeated o.name.now (F.form o.form)) };
}

impl<F: Form> Options for AtMost<F> {
    ghost use Rattle.command_words.specs.KeptLaws.{each_kept};

    type Values = List<F::Value>;

    ghost keys = { λ o. at_most o.most o.name.now (F.form o.form) ∷ [] };

    ghost holds = { λ o. HoldsEach F.of (at_most o.most o.name.now (F.form o.form)) };

    fn none_given(self, alloc: Global) -> List<F::Value> {
        List::new(alloc)
    }

    fn add(
        self,
        given: &mut List<F::Value>,
        alloc: Global,
        word: &OptionWord<'_>,
    ) -> Result<bool, LineFault> {
        if !is_named(self.name, word.name) {
            return Ok(false);
        }
        let value = self.form.read(alloc, word.column, word.value)?;
        if given.len() >= self.most {
            return Err(LineFault::Refused(Refusal::OutOfRange));
        }
        given.push(value)?;
        Ok(true)
    }

    ghost kept = { λ o. each_kept F.of (at_most o.most o.name.now (F.form o.form)) };
}

impl<A: Options, B: Options> Options for (A, B) {
    ghost use Rattle.command_words.specs.KeptLaws.{neither_in};

    type Values = (A::Values, B::Values);

    ghost keys = { λ o. A.keys o.0 ++ B.keys o.1 };

    ghost holds = { λ o given line. A.holds o.0 given.0 line × B.holds o.1 given.1 line };

    fn none_given(self, alloc: Global) -> (A::Values, B::Values) {
        (self.0.none_given(alloc), self.1.none_given(alloc))
    }

    fn add(
        self,
        given: &mut (A::Values, B::Values),
        alloc: Global,
        word: &OptionWord<'_>,
    ) -> Result<bool, LineFault> {
        if self.0.add(&mut given.0, alloc, word)? {
            return Ok(true);
        }
        self.1.add(&mut given.1, alloc, word)
    }

    ghost kept = { λ o given before next apart holds. let none = neither_in next.key (A.keys o.0) (B.keys o.1) apart in (A.kept o.0 given.0 before next none.0 holds.0, B.kept o.1 given.1 before next none.1 holds.1) };
}

// Adds the option that a word gives, which is refused if it is none of those that the command takes.
fn add_word<O: Options>(
    options: O,
    given: &mut O::Values,
    alloc: Global,
    word: &Word<'_>,
) -> Result<(), LineFault>
    requires apart { are_apart (O.keys options) ≡ true }
    ensures { (before : Sequence Given) → O.holds options given.old before → AddsWord (O.holds options) result given.new (option_word (O.keys options) (line_word word.now) before) }
{
    let column = word.column;
    let Some((name, value)) = word.text.as_str().split_once(':') else {
        return Err(LineFault::bad_line(column));
    };
    let word = OptionWord {
        name,
        value,
        column,
    };
    if options.add(given, alloc, &word)? {
        return Ok(());
    }
    Err(LineFault::bad_line(column))
}

/// The values that all words that are left give. Each word must be one of the options that the command takes, of which
/// no two have one name.
pub fn read_options<O: Options>(
    alloc: Global,
    options: O,
    words: &mut Words<'_>,
) -> Result<O::Values, LineFault>
    requires apart { are_apart (O.keys options) ≡ true }
    ensures read { ReadsGiven (O.holds options) result (options_of (O.keys options) (left words.old) []) }
    ensures end { end words.new ≡ end words.old }
{
    let mut given = options.none_given(alloc);
    while let Some(word) = words.next_left(alloc)? {
        add_word(options, &mut given, alloc, &word)?;
    }
    Ok(given)
}

/// The value of an option that a command must have. If it is missing, the line is refused at its end.
pub fn required<T>(value: Option<T>, words: &Words<'_>) -> Result<T, LineFault>
    ensures { IsRequired result value (end words.now) }
{
    value.ok_or(LineFault::bad_line(words.end()))
}
