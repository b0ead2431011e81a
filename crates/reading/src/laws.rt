//! What holds of every image, as contracts: each function is called by nobody and does nothing.
ghost use Rattle.reading.specs.Laws.{RoundTrip, RoundTripBeforeZeros, EntriesComeFirst, WhatIsReadIsThere};

/// The bytes of a segment give its entries back: exactly these, in order.
pub fn round_trip()
    ensures { RoundTrip }
{}

/// So they do with zeros behind.
pub fn round_trip_before_zeros()
    ensures { RoundTripBeforeZeros }
{}

/// Whatever stands behind a segment, its entries are read first.
pub fn entries_come_first()
    ensures { EntriesComeFirst }
{}

/// An entry that is read complete stands in the image, byte for byte as the format writes it.
pub fn what_is_read_is_there()
    ensures { WhatIsReadIsThere }
{}
