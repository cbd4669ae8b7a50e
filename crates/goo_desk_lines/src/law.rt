//! Lines are a run.
ghost use Rattle.goo_desk_lines.specs.Laws.{LinesAreARun};

/// Lines, answered in turn, come to what a run of the requests comes to that they state: its state,
/// the text of its outcomes with each line that states no request answered in its place, and their
/// counts.
pub fn lines_are_a_run()
    ensures { LinesAreARun }
{}
