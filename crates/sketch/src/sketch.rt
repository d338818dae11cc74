//! A sketch: its tables, and the promise that they hold a list with an accepted plan.
ghost use Rattle.sketch.specs.Keeping.{Kept};

use file::tables::Tables;

/// A list and a plan that check accepts for it. There is no other sketch: whoever makes or changes one shows that.
#[derive(Drop)]
pub struct Sketch {
    tables: Tables,
    ghost kept: { Kept tables },
}

pub mod calls;
