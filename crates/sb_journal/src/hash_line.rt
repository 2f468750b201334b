use sb_model::Added;

/// A hash line of a change: it puts a full hash in with the size of its prefix, or takes a full hash out.
#[derive(Clone, Copy, Debug, PartialEq, Eq)]
pub enum HashLine {
    Add(Added),
    Remove([u8; 32]),
}
