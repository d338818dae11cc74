//! Why a call on a sketch is refused.
ghost use Rattle.std.specs.Prelude.{◌≡◌};
ghost use Rattle.sketch.specs.SketchFaults.{sketch_refusal};
ghost use Rattle.sketch.specs.declared.faults.SketchFault.TheVariants.{File, Plan};

use file::faults::FileFault;
use graph::refusal::Refusal;
use plan::faults::PlanFault;

/// What is wrong with what a call was handed, or with the room for its answer.
#[derive(Clone, Copy, PartialEq, Eq, Debug)]
pub enum SketchFault {
    /// The bytes are no file.
    File(FileFault),
    /// The list is not lawful, or the plan is not one for it.
    Plan(PlanFault),
    /// The buffer has fewer places than are needed.
    ShortBuffer { needed: usize },
}

impl From<SketchFault> for Refusal {
    ghost from_gives = { λ fault told. told ≡ sketch_refusal fault };

    fn from(fault: SketchFault) -> Refusal {
        match fault {
            SketchFault::File(fault) => Refusal::from(fault),
            SketchFault::Plan(fault) => Refusal::from(fault),
            SketchFault::ShortBuffer { needed } => Refusal {
                layer: 4,
                number: 26,
                place: needed,
            },
        }
    }
}

// These two by hand, so that a clause can say which fault comes through a `?`.
impl From<FileFault> for SketchFault {
    ghost from_gives = { λ f s. s ≡ File f };

    fn from(fault: FileFault) -> SketchFault {
        SketchFault::File(fault)
    }
}

impl From<PlanFault> for SketchFault {
    ghost from_gives = { λ f s. s ≡ Plan f };

    fn from(fault: PlanFault) -> SketchFault {
        SketchFault::Plan(fault)
    }
}
