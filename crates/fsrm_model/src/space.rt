//! The space that a file takes on the disk.

ghost use Rattle.std.specs.Prelude.{◌≡◌, ◌≤◌, true};
ghost use Rattle.fsrm_model.specs.store.Capacities.{is_cluster};
ghost use Rattle.fsrm_model.specs.values.Limits.{longest_file};
ghost use Rattle.fsrm_model.specs.values.Space.{rounded};

/// A file's length in bytes, up to 17,592,185,978,880, rounded up to whole clusters of so many bytes.
pub fn allocated(bytes: u64, cluster: u32) -> u64
    requires bytes { bytes ≤ longest_file }
    requires cluster { is_cluster cluster ≡ true }
    ensures space { result ≡ rounded cluster bytes }
    ensures small { result ≤ longest_file }
{
    // A cluster is a power of 2, so nothing is divided.
    let shift = cluster.trailing_zeros();
    let last = cluster as u64 - 1;
    (bytes + last) >> shift << shift
}
