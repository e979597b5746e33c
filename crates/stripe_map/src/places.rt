use flr_base::Range;

/// Where a component holds a byte of the file: the stripe whose object has it, counted from 0, and
/// the byte's offset in that object.
#[derive(Clone, Copy, Debug, PartialEq, Eq)]
pub struct Place {
    pub index: u32,
    pub offset: u64,
}

/// The part of a range of the file that lies in one stripe unit, and the place of its first byte.
#[derive(Clone, Copy, Debug, PartialEq, Eq)]
pub struct Cut {
    pub range: Range,
    pub place: Place,
}
