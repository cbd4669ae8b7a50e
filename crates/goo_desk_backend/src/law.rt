//! A registry's imports are runs.
ghost use Rattle.goo_desk_backend.specs.Showing.{imported_by, begun_by};
ghost use Rattle.goo_desk_backend.specs.Tables.{ImportsAreRuns};

/// What a registry's import comes to is a run of the requests of its table's rows, and where it
/// stopped a run of the first of them.
pub fn imports_are_runs()
    ensures { ImportsAreRuns imported_by begun_by }
{}
