//! Kinds of elements.
ghost use Rattle.graph.specs.Lists.{IsKind};

/// What an element is.
#[derive(Clone, Copy, PartialEq, Eq, Debug)]
pub enum Kind {
    Point,
    Line,
}

/// A byte that is no kind.
#[derive(Clone, Copy, PartialEq, Eq, Debug)]
pub struct UnknownKind(pub u8);

impl TryFrom<u8> for Kind {
    type Error = UnknownKind;

    ghost try_from_gives = { IsKind };

    fn try_from(byte: u8) -> Result<Kind, UnknownKind> {
        match byte {
            0 => Ok(Kind::Point),
            1 => Ok(Kind::Line),
            _ => Err(UnknownKind(byte)),
        }
    }
}
