//! Grades, and a list of them.
ghost use Rattle.std.specs.Prelude.{◌≡◌, ◌<◌, length, Some, slice_get};
ghost use Rattle.fault_grades.specs.Grade.{grade_as};

use std::marker::Model;
use std::mem::size_of;

/// What a list of steps shows of a fault that is present at every step. Steps count from 0.
#[derive(Clone, Copy, Debug, PartialEq, Eq)]
pub enum Grade {
    /// At this step the rails agree for the first time, and no output was wrong at an earlier one.
    Alarm(u32),
    /// At this step an output is wrong for the first time, and the rails have not agreed up to and including it.
    Silent(u32),
    /// Neither, in all steps.
    Unseen,
}

// There is one for each fault.
const _: () = prove!(size_of::<Grade>() == 8);

/// One grade for each listed fault, in their order.
#[derive(Debug, Drop)]
pub struct GradeList {
    pub(crate) items: Vec<Grade>,
}

impl Model for GradeList {
    ghost use Rattle.std.specs.Prelude.{List, map};
    ghost use Rattle.grading_laws.specs.Grades.{Grade};

    ghost Value = { List Grade };

    ghost use Rattle.fault_grades.specs.Grade.{grade_as};

    ghost view = { λ grades. map grade_as grades.items.items };
}

impl GradeList {
    /// The number of grades.
    pub fn len(&self) -> usize
        ensures count { result ≡ length self.now }
    {
        self.items.len()
    }

    /// The grade at `place`, counted from 0.
    pub fn get(&self, place: usize) -> Grade
        requires { place < length self.now }
        ensures found { slice_get self.now place ≡ Some (grade_as result) }
    {
        self.items[place]
    }
}
