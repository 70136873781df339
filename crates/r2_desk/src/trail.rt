ghost use Rattle.std.specs.Prelude.{◌≡◌, [], length};

use crate::Step;
use std::alloc::Global;
use std::marker::Model;

/// Turns on a desk in their order, with what came and what was sent.
#[derive(Debug, Drop)]
pub struct Trail {
    pub(crate) steps: Vec<Step>,
}

impl Model for Trail {
    ghost use Rattle.std.specs.Prelude.{List};
    ghost use Rattle.r2_desk.specs.declared.step.Step.{Step};

    ghost Value = { List Step };

    ghost view = { λ a. a.steps.items };
}

impl Trail {
    /// No steps, with no memory taken.
    pub(crate) fn new(alloc: Global) -> Trail
        ensures { result ≡ [] }
    {
        Trail {
            steps: Vec::new(alloc),
        }
    }

    pub fn as_slice(&self) -> &[Step]
        ensures { result.now ≡ self.now }
    {
        self.steps.as_slice()
    }

    pub fn len(&self) -> usize
        ensures { result ≡ length self.now }
    {
        self.steps.len()
    }
}
