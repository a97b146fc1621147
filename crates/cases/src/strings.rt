//! Sets of byte strings, in the order in which they are asked.

/// A set of strings.
#[derive(Clone, Copy)]
pub enum StringSet {
    /// The empty string, and those of one byte.
    Few,
    /// Those of two bytes that begin with this one.
    Pairs(u8),
    /// Those of three and of four edge bytes that begin with this one.
    Edges(u8),
}

/// Where the rows of the table of well-formed UTF-8 begin and end, and their neighbors.
const EDGES: [u8; 24] = [
    0x00, 0x7f, 0x80, 0x8f, 0x90, 0x9f, 0xa0, 0xbf, 0xc0, 0xc1, 0xc2, 0xdf, 0xe0, 0xe1, 0xec, 0xed,
    0xee, 0xef, 0xf0, 0xf1, 0xf3, 0xf4, 0xf5, 0xff,
];

impl StringSet {
    /// Hands on each string of the set, in order.
    pub(crate) fn each<F: FnMut(&[u8])>(self, mut take: F)
        requires { F.IsAlwaysCallable take }
    {
        match self {
            StringSet::Few => {
                take(&[]);
                for only in 0..=u8::MAX {
                    take(&[only]);
                }
            }
            StringSet::Pairs(first) => {
                for second in 0..=u8::MAX {
                    take(&[first, second]);
                }
            }
            StringSet::Edges(first) => {
                for second in EDGES {
                    for third in EDGES {
                        take(&[first, second, third]);
                        for fourth in EDGES {
                            take(&[first, second, third, fourth]);
                        }
                    }
                }
            }
        }
    }
}
