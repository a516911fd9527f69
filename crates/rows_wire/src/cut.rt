// Where the answers of rows are cut in pieces.

/// How many bytes an answer has at most that is cut in two at each place.
const SHORT: usize = 1_024;

/// How an answer is cut in pieces.
#[derive(Clone, Copy)]
pub(crate) struct Cut {
    /// How many bytes the first piece has.
    pub(crate) first: usize,
    /// How many bytes each piece after the first has. The last may have fewer.
    pub(crate) others: usize,
}

/// In pieces of one byte.
pub(crate) const SINGLE: Cut = Cut {
    first: 1,
    others: 1,
};

/// In pieces of 4,096 bytes.
pub(crate) const LARGE: Cut = Cut {
    first: 4_096,
    others: 4_096,
};

impl Cut {
    // In one piece, of so many bytes.
    pub(crate) fn whole(len: usize) -> Cut {
        Cut {
            first: len,
            others: 1,
        }
    }

    // In two pieces, at this place of a short answer.
    pub(crate) fn at(place: usize) -> Cut {
        Cut {
            first: place,
            others: SHORT,
        }
    }
}

// At how many places an answer of so many bytes is cut in two: before each byte of a short one, and nowhere in a longer
// one.
pub(crate) fn places(len: usize) -> usize {
    if len <= SHORT { len } else { 0 }
}
