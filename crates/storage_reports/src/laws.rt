//! Worked reports.

ghost use Rattle.storage_reports.specs.Worked.{by_type, apart_types, unused_filters, by_owner, large_files, duplicates, below_folder, of_owner, of_pattern, late_folder, unused_files, used_files, grouped_duplicates, quota_usage, used_quotas, audit, last_audit};

/// The texts of worked reports.
pub fn worked_reports()
    ensures by_type { by_type }
    ensures apart_types { apart_types }
    ensures unused_filters { unused_filters }
    ensures by_owner { by_owner }
    ensures large_files { large_files }
    ensures duplicates { duplicates }
    ensures below_folder { below_folder }
    ensures of_owner { of_owner }
    ensures of_pattern { of_pattern }
    ensures late_folder { late_folder }
    ensures unused_files { unused_files }
    ensures used_files { used_files }
    ensures grouped_duplicates { grouped_duplicates }
    ensures quota_usage { quota_usage }
    ensures used_quotas { used_quotas }
    ensures audit { audit }
    ensures last_audit { last_audit }
{}
