//! The limits that several crates keep of which none stands on another.

/// The bytes of a corpus text: 64 MiB.
pub const MOST_CORPUS_BYTES: u32 = 67_108_864;

/// The items of a corpus.
pub const MOST_ITEMS: u32 = 1_000_000;

/// The values that an item has of one property.
pub const MOST_VALUES: u32 = 1_000;

/// The bytes of a packet, and so of a request's body.
pub const MOST_PACKET_BYTES: usize = 131_072;

/// The digits of a whole number in a packet, and of a body's length in a head.
pub const MOST_DIGITS: usize = 10;

/// How many tokens more may lie between the ends of a near than it matches.
pub const GREATEST_DISTANCE: u32 = 1_000;

/// What xrank may add or take away.
pub const GREATEST_BOOST: u32 = 1_000_000;
