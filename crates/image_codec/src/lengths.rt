//! How many bytes the pieces of an image have.

ghost use Rattle.std.specs.Prelude.{◌≡◌, ◌≤◌, ◌+◌, ◌*◌, ℕ, Bool, true, List as Items, Option, length};
ghost use Rattle.fsrm_model.specs.store.Lasting.{flagged_quota};
ghost use Rattle.record_fields.specs.Formats.{number_spelled, text_spelled, optional_spelled, listed_spelled};
ghost use Rattle.image_codec.specs.Parts.{any, few_meet, is_short, action_meets, threshold_meets, quota_meets, template_meets, group_meets, screen_meets, filter_meets, job_meets, some_meets};
ghost use Rattle.image_codec.specs.Pieces.{lent, piece_meets, piece_spelled};
ghost use Rattle.image_codec.specs.Rows.{action as action_format, threshold as threshold_format, quota as quota_format, template as template_format, group as group_format, screen as screen_format, filter as filter_format, job as job_format};

use crate::actions::{ActionField, ThresholdField};
use crate::row_ref::RowRef;
use fsrm_base::{List, Text};
use fsrm_model::limits::{
    MOST_ACTIONS, MOST_EXCLUDED, MOST_PATTERNS, MOST_SCREEN_GROUPS, MOST_THRESHOLDS,
};
use fsrm_model::{Action, Filter, GroupRow, JobRow, QuotaRow, ScreenRow, TemplateRow, Threshold};
use record_fields::{TextField, U32Field};

/// How many bytes the items of a list have.
pub trait Measured {
    /// What is measured.
    type Value: Drop;

    ghost spell: { Self.Value → Items ℕ };

    ghost meets: { Self.Value → Bool };

    ghost most: { ℕ };

    /// How many bytes its spelling has.
    fn len(value: &Self::Value) -> u64
        requires { meets value.now ≡ true }
        ensures exact { result ≡ length (spell value.now) }
        ensures few { result ≤ most };
}

impl Measured for U32Field {
    type Value = u32;

    ghost spell = { number_spelled 4 };

    ghost meets = { any };

    ghost most = { 4 };

    fn len(_value: &u32) -> u64 {
        4
    }
}

impl Measured for TextField {
    type Value = Text;

    ghost spell = { text_spelled };

    ghost meets = { is_short };

    ghost most = { 1026 };

    fn len(value: &Text) -> u64 {
        2 + value.as_str().len() as u64
    }
}

impl Measured for ActionField {
    type Value = Action;

    ghost spell = { action_format.spell };

    ghost meets = { action_meets };

    ghost most = { 1040 };

    fn len(value: &Action) -> u64 {
        5 + TextField::len(&value.text) + optional_len_8(&value.last_run)
    }
}

impl Measured for ThresholdField {
    type Value = Threshold;

    ghost spell = { threshold_format.spell };

    ghost meets = { threshold_meets };

    ghost most = { 8326 };

    fn len(value: &Threshold) -> u64 {
        2 + rows_len::<ActionField>(&value.actions, MOST_ACTIONS)
    }
}

// A list of at most so many items, with its count.
fn rows_len<M: Measured>(values: &List<M::Value>, most: usize) -> u64
    requires few { most ≤ 64 }
    requires meets { few_meet most M.meets values.now ≡ true }
    requires small { M.most ≤ 65536 }
    ensures exact { result ≡ length (listed_spelled (number_spelled 4) M.spell values.now) }
    ensures few { result ≤ 4 + most * M.most }
{
    // What is known of the list rests on it.
    let _most = most;
    let items = values.as_slice();
    let mut total = 4;
    for value in items {
        total += M::len(value);
    }
    total
}

fn optional_len_4(value: &Option<u32>) -> u64
    ensures exact { result ≡ length (optional_spelled (number_spelled 4) value.now) }
    ensures few { result ≤ 5 }
{
    match value {
        None => 1,
        Some(_) => 5,
    }
}

fn optional_len_8(value: &Option<u64>) -> u64
    ensures exact { result ≡ length (optional_spelled (number_spelled 8) value.now) }
    ensures few { result ≤ 9 }
{
    match value {
        None => 1,
        Some(_) => 9,
    }
}

fn pattern_len(value: &Option<Text>) -> u64
    requires { some_meets is_short value.now ≡ true }
    ensures exact { result ≡ length (optional_spelled text_spelled value.now) }
    ensures few { result ≤ 1027 }
{
    match value {
        None => 1,
        Some(text) => 1 + TextField::len(text),
    }
}

/// How many bytes a piece has, as it is written.
pub fn row_len(row: &RowRef<'_>) -> u64
    requires { piece_meets (lent row.now) ≡ true }
    ensures { result ≡ length (piece_spelled (lent row.now)) }
{
    match *row {
        RowRef::Start { .. } => 12,
        RowRef::Count(_) => 4,
        RowRef::Node { name, .. } => 47 + name.len() as u64,
        RowRef::Quota(row) => quota_len(row),
        RowRef::Template(row) => template_len(row),
        RowRef::Auto(row) => 8 + rows_len::<TextField>(&row.excluded, MOST_EXCLUDED),
        RowRef::Group(row) => group_len(row),
        RowRef::Screen(row) => screen_len(row),
        RowRef::Except(row) => 4 + rows_len::<U32Field>(&row.groups, MOST_SCREEN_GROUPS),
        RowRef::Job(row) => job_len(row),
        RowRef::Act(_) => 15,
        RowRef::Audit { name, .. } => 23 + name.len() as u64,
    }
}

fn quota_len(row: &QuotaRow) -> u64
    requires { quota_meets row.now ≡ true }
    ensures { result ≡ length (quota_format.spell (flagged_quota row.now)) }
{
    30 + rows_len::<ThresholdField>(&row.thresholds, MOST_THRESHOLDS)
        + optional_len_4(&row.template)
}

fn template_len(row: &TemplateRow) -> u64
    requires { template_meets row.now ≡ true }
    ensures { result ≡ length (template_format.spell row.now) }
{
    13 + TextField::len(&row.name) + rows_len::<ThresholdField>(&row.thresholds, MOST_THRESHOLDS)
}

fn group_len(row: &GroupRow) -> u64
    requires { group_meets row.now ≡ true }
    ensures { result ≡ length (group_format.spell row.now) }
{
    let members = rows_len::<TextField>(&row.members, MOST_PATTERNS);
    let non_members = rows_len::<TextField>(&row.non_members, MOST_PATTERNS);
    4 + TextField::len(&row.name) + members + non_members
}

fn screen_len(row: &ScreenRow) -> u64
    requires { screen_meets row.now ≡ true }
    ensures { result ≡ length (screen_format.spell row.now) }
{
    let groups = rows_len::<U32Field>(&row.groups, MOST_SCREEN_GROUPS);
    let actions = rows_len::<ActionField>(&row.actions, MOST_ACTIONS);
    5 + groups + actions
}

fn job_len(row: &JobRow) -> u64
    requires { job_meets row.now ≡ true }
    ensures { result ≡ length (job_format.spell row.now) }
{
    let texts = TextField::len(&row.name) + TextField::len(&row.schedule);
    17 + texts + filter_len(&row.filter) + optional_len_8(&row.last_run)
}

fn filter_len(filter: &Filter) -> u64
    requires { filter_meets filter.now ≡ true }
    ensures exact { result ≡ length (filter_format.spell filter.now) }
    ensures few { result ≤ 1055 }
{
    let numbers = optional_len_4(&filter.owner)
        + optional_len_8(&filter.min_size)
        + optional_len_4(&filter.days)
        + optional_len_4(&filter.min_use);
    4 + numbers + pattern_len(&filter.pattern)
}
