//! Letters with the place where they are written.

use crate::markup::Letter;
use ng_ast::Place;

/// A letter with the place in the file where it is written: that of its own byte, or of the `&` of the entity it comes from.
#[derive(Clone, Copy, Debug, PartialEq, Eq)]
pub struct PlacedLetter {
    pub letter: Letter,
    pub place: Place,
}
