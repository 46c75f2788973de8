//! Evaluators of target texts.
use guppy_data::{TargetEval, TargetSpec};

/// What a platform answers to `cfg(windows)` and to any other text.
#[derive(Clone, Copy)]
pub struct Machine {
    pub windows: Option<bool>,
    pub other: Option<bool>,
}

/// Asks a machine.
pub struct ByTable;

impl TargetEval for ByTable {
    ghost use Rattle.std.specs.Prelude.{nat_eq, codes, if◌then◌else◌};
    ghost use Rattle.std.specs.Cmp.Lexicographic.{pointwise};

    type Platform = Machine;

    ghost answer = { λ _ text machine.
        if (pointwise nat_eq text (codes "cfg(windows)")) then machine.windows else machine.other };

    fn eval(&self, spec: &TargetSpec, machine: &Machine) -> Option<bool> {
        if spec.as_str() == "cfg(windows)" {
            machine.windows
        } else {
            machine.other
        }
    }
}
