use sb_model::ListName;

/// What the first line of a journal says.
#[derive(Clone, Copy)]
pub struct Header {
    /// Whether a line that adds may name a size, as in the second form.
    pub sized: bool,
    pub epoch: u64,
}

/// What the first line of a record says.
#[derive(Clone, Copy)]
pub enum Head {
    List(ListName, u8),
    Change(ListName, u32, u32),
}
