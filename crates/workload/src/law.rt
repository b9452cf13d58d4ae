//! The law of a workload's lines. The call does nothing: it stands for this law.

ghost use Rattle.std.specs.Prelude.{ℕ};
ghost use Rattle.bench_script.specs.Limits.{AreWithinLimits};
ghost use Rattle.workload.specs.Workload.{IsCount, SpellEach, workload_lines, workload_commands};

/// Each line of a workload spells its command, whatever the seed and the count are, and the lines are within the limits
/// of a script.
pub fn lines_are_spelled()
    ensures spelled { (seed count : ℕ) → SpellEach (workload_lines seed count) (workload_commands seed count) }
    ensures limits { (seed count : ℕ) → IsCount count → AreWithinLimits (workload_lines seed count) }
{}
