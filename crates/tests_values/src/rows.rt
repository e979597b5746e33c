ghost use Rattle.std.specs.Prelude.{◌≡◌, ℕ, List, [], ◌∷◌, length};
ghost use Rattle.script_values.specs.Scripts.{work_of};
ghost use Rattle.tests_values.specs.Rows.{plain_row, mirrored_row, cut_row, disturbed_row};

/// The work of worked rows, by the definition. What is written isn't looked at, only how much it is.
pub fn worked_rows()
    ensures plain { (bytes : List ℕ) → length bytes ≡ 3 → work_of (plain_row bytes) ≡ 11 }
    ensures mirrored { (first second : List ℕ) → length first ≡ 1048576 → length second ≡ 2 → work_of (mirrored_row 16 first second) ≡ 3053 }
    ensures more_mirrors { (first second : List ℕ) → length first ≡ 1048576 → length second ≡ 2 → work_of (mirrored_row 32 first second) ≡ 6173 }
    ensures cut { (bytes : List ℕ) → length bytes ≡ 131072 → work_of (cut_row bytes) ≡ 21 }
    ensures disturbed { (bytes : List ℕ) → length bytes ≡ 3 → work_of (disturbed_row bytes) ≡ 27 }
{}
