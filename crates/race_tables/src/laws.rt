//! Laws of the table.

ghost use Rattle.std.specs.Prelude.{◌≡◌, ◌≢◌, List, [], ◌∷◌, Some, length, map};
ghost use Rattle.std.specs.List.{All, AllPairs, count_by, find, sum};
ghost use Rattle.race_tables.specs.Outcomes.{are_equal};
ghost use Rattle.race_tables.specs.Rows.{HasRow, Row, Run, rows};

/// The placement of each row is that of the first run with its outcome.
pub fn rows_are_first()
    ensures { (runs : List Run) → All (λ row. find (λ run. are_equal row.outcome run.outcome) runs ≡ Some (record { places = row.first; outcome = row.outcome })) (rows runs) }
{}

/// No two rows have the same outcome.
pub fn rows_differ()
    ensures { (runs : List Run) → AllPairs (λ one other. one.outcome ≢ other.outcome) (rows runs) }
{}

/// Each row counts the runs with its outcome, and the counts add up to the number of runs.
pub fn rows_count()
    ensures each { (runs : List Run) → All (λ row. row.count ≡ count_by (λ run. are_equal row.outcome run.outcome) runs) (rows runs) }
    ensures all { (runs : List Run) → sum (map (λ row. row.count) (rows runs)) ≡ length runs }
{}

/// Each run has its row.
pub fn rows_are_complete()
    ensures { (runs : List Run) → All (HasRow (rows runs)) runs }
{}

/// If one row is left, each run has its outcome.
pub fn one_row_is_one_outcome()
    ensures { (runs : List Run) (row : Row) → rows runs ≡ row ∷ [] → All (λ run. run.outcome ≡ row.outcome) runs }
{}
