//! A law about the definitions.
ghost use Rattle.std.specs.Prelude.{◌≡◌};
ghost use Rattle.sysv_workers.specs.declared.workers.TheConstants.{MAX_WORKERS};

/// States the maximum number of workers of `run_workers`.
pub fn numerals_of_workers()
    ensures { MAX_WORKERS ≡ 16 }
{}
