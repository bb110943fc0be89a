//! The numbers that limit something, as the code has them. `limits` proves that each is the number of that name in the
//! definitions.

ghost use Rattle.std.specs.Prelude.{◌≡◌};
ghost use Rattle.fsrm_model.specs.values.Limits.{latest_moment, longest_file, last_owner, longest_line, longest_path, longest_entry, longest_script, longest_name, most_nodes, most_names, least_limit, greatest_limit, most_quotas, greatest_percent, most_thresholds, most_actions, longest_action_text, most_minutes, most_entries, most_templates, most_autos, most_excluded, most_groups, most_patterns, most_screens, most_excepts, most_screen_groups, most_text_bytes, most_visits, most_jobs, longest_schedule, most_days, most_use, most_rows};

/// The greatest moment: 2099-12-31 23:59:59 UTC, in seconds since 1970-01-01 00:00:00 UTC.
pub const LATEST_MOMENT: u64 = 4_102_444_799;

/// The bytes of the longest file, 2^44 - 65,536.
pub const LONGEST_FILE: u64 = 17_592_185_978_880;

/// The greatest number of an owner.
pub const LAST_OWNER: u32 = 4_294_967_295;

/// The bytes of the longest line that is read, its end not counted.
pub const LONGEST_LINE: usize = 65_536;

/// The bytes of the longest path as a text, with its volume.
pub const LONGEST_PATH: usize = 65_535;

/// The bytes of the longest entry of a journal.
pub const LONGEST_ENTRY: usize = 131_072;

/// The bytes of a script that are read.
pub const LONGEST_SCRIPT: u64 = 4_294_967_296;

/// The bytes of the longest name. A pattern of file names has as many at most.
pub const LONGEST_NAME: usize = 255;

/// The nodes of the largest store.
pub const MOST_NODES: u32 = 1_048_576;

/// The bytes of all names of nodes of the largest store.
pub const MOST_NAMES: u32 = 268_435_456;

/// The least limit of a quota, in bytes.
pub const LEAST_LIMIT: u64 = 1_024;

/// The greatest limit of a quota, 2^60 bytes.
pub const GREATEST_LIMIT: u64 = 1_152_921_504_606_846_976;

/// How many quotas there may be.
pub const MOST_QUOTAS: usize = 4_096;

/// The greatest percentage of a threshold.
pub const GREATEST_PERCENT: u16 = 250;

/// How many thresholds a quota or a template may have.
pub const MOST_THRESHOLDS: usize = 16;

/// How many actions a threshold may have, and how many a screen.
pub const MOST_ACTIONS: usize = 8;

/// How many templates there may be.
pub const MOST_TEMPLATES: usize = 1_024;

/// How many auto-apply quotas there may be.
pub const MOST_AUTOS: usize = 1_024;

/// How many names an auto-apply quota may exclude.
pub const MOST_EXCLUDED: usize = 32;

/// How many file groups there may be.
pub const MOST_GROUPS: usize = 1_024;

/// How many members a file group may have, and how many non-members.
pub const MOST_PATTERNS: usize = 64;

/// How many screens there may be.
pub const MOST_SCREENS: usize = 4_096;

/// How many exceptions there may be.
pub const MOST_EXCEPTS: usize = 4_096;

/// How many file groups a screen may have, and how many an exception.
pub const MOST_SCREEN_GROUPS: usize = 16;

/// The bytes of the longest text of an action.
pub const LONGEST_ACTION_TEXT: usize = 1_024;

/// The greatest run limit of actions, in minutes.
pub const MOST_MINUTES: u32 = 525_600;

/// How many entries the log of actions keeps, and how many the audit log.
pub const MOST_ENTRIES: usize = 1_024;

/// The bytes of all texts of objects.
pub const MOST_TEXT_BYTES: u32 = 4_194_304;

/// How many folders one step of a scan may visit.
pub const MOST_VISITS: u32 = 1_000_000;

/// How many report jobs there may be.
pub const MOST_JOBS: usize = 256;

/// The bytes of the longest schedule of a report job.
pub const LONGEST_SCHEDULE: usize = 200;

/// The most days that a report may look back.
pub const MOST_DAYS: u32 = 36_500;

/// The greatest percentage of a limit that a report may ask for.
pub const MOST_USE: u32 = 1_000;

/// The most rows of a report.
pub const MOST_ROWS: u32 = 100_000;

/// Each of these constants is the number that the definitions have.
pub fn limits()
    ensures latest_moment { LATEST_MOMENT ≡ latest_moment }
    ensures longest_file { LONGEST_FILE ≡ longest_file }
    ensures last_owner { LAST_OWNER ≡ last_owner }
    ensures longest_line { LONGEST_LINE ≡ longest_line }
    ensures longest_path { LONGEST_PATH ≡ longest_path }
    ensures longest_entry { LONGEST_ENTRY ≡ longest_entry }
    ensures longest_script { LONGEST_SCRIPT ≡ longest_script }
    ensures longest_name { LONGEST_NAME ≡ longest_name }
    ensures most_nodes { MOST_NODES ≡ most_nodes }
    ensures most_names { MOST_NAMES ≡ most_names }
    ensures least_limit { LEAST_LIMIT ≡ least_limit }
    ensures greatest_limit { GREATEST_LIMIT ≡ greatest_limit }
    ensures most_quotas { MOST_QUOTAS ≡ most_quotas }
    ensures greatest_percent { GREATEST_PERCENT ≡ greatest_percent }
    ensures most_thresholds { MOST_THRESHOLDS ≡ most_thresholds }
    ensures most_actions { MOST_ACTIONS ≡ most_actions }
    ensures longest_action_text { LONGEST_ACTION_TEXT ≡ longest_action_text }
    ensures most_minutes { MOST_MINUTES ≡ most_minutes }
    ensures most_entries { MOST_ENTRIES ≡ most_entries }
    ensures most_templates { MOST_TEMPLATES ≡ most_templates }
    ensures most_autos { MOST_AUTOS ≡ most_autos }
    ensures most_excluded { MOST_EXCLUDED ≡ most_excluded }
    ensures most_groups { MOST_GROUPS ≡ most_groups }
    ensures most_patterns { MOST_PATTERNS ≡ most_patterns }
    ensures most_screens { MOST_SCREENS ≡ most_screens }
    ensures most_excepts { MOST_EXCEPTS ≡ most_excepts }
    ensures most_screen_groups { MOST_SCREEN_GROUPS ≡ most_screen_groups }
    ensures most_text_bytes { MOST_TEXT_BYTES ≡ most_text_bytes }
    ensures most_visits { MOST_VISITS ≡ most_visits }
    ensures most_jobs { MOST_JOBS ≡ most_jobs }
    ensures longest_schedule { LONGEST_SCHEDULE ≡ longest_schedule }
    ensures most_days { MOST_DAYS ≡ most_days }
    ensures most_use { MOST_USE ≡ most_use }
    ensures most_rows { MOST_ROWS ≡ most_rows }
{}
