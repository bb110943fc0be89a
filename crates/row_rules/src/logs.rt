//! The log of actions and the audit log.

ghost use Rattle.std.specs.Prelude.{◌≡◌};
ghost use Rattle.std.specs.List.{list_all};
ghost use Rattle.fsrm_model.specs.store.Valid.{are_audits, are_entries, is_audit, is_moment};

use crate::actions::is_moment;
use fsrm_model::limits::MOST_ENTRIES;
use fsrm_model::{ActRow, AuditRow};
use name_rules::is_name;

fn are_of_moments(log: &[ActRow]) -> bool
    ensures { result ≡ list_all (λ entry. is_moment entry.moment) log.now }
{
    log.iter().all(|entry| is_moment(entry.moment))
}

/// Whether this is the log of the actions that ran.
pub fn are_entries(log: &[ActRow]) -> bool
    ensures { result ≡ are_entries log.now }
{
    log.len() <= MOST_ENTRIES && are_of_moments(log)
}

fn is_audit(entry: &AuditRow) -> bool
    ensures { result ≡ is_audit entry.now }
{
    is_moment(entry.moment) && is_name(entry.name.as_str())
}

fn are_all_audits(log: &[AuditRow]) -> bool
    ensures { result ≡ list_all is_audit log.now }
{
    log.iter().all(|entry| is_audit(entry))
}

/// Whether this is the log of the names that screens judged.
pub fn are_audits(log: &[AuditRow]) -> bool
    ensures { result ≡ are_audits log.now }
{
    log.len() <= MOST_ENTRIES && are_all_audits(log)
}
