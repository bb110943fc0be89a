//! Where a search among a volume's nodes begins.

use block_list::Place;

/// A place among a volume's nodes that is kept from one call to the next: after the children that were lent, or where
/// `may_create` saw that a node of a name might stand. The next search ends at once if it would end there; what it finds
/// is the same wherever the finger is.
#[derive(Clone, Copy, Debug, Default, PartialEq, Eq)]
pub struct Finger {
    run: usize,
    offset: usize,
}

impl Finger {
    pub(crate) fn at(place: Place) -> Finger {
        Finger {
            run: place.run,
            offset: place.offset,
        }
    }

    pub(crate) fn place(self) -> Place {
        Place {
            run: self.run,
            offset: self.offset,
        }
    }
}
