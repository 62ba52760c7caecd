// What statements stand in.

/// Whether statements stand in a region of their body.
#[derive(Clone, Copy)]
pub enum Within {
    /// In none.
    NoRegion,
    /// In one around the innermost LOOP that is around them, which RETURN leaves.
    AroundLoop,
    /// In one within that LOOP, which EXIT leaves too.
    InLoop,
}
