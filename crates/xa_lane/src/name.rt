//! The name of a lane.

/// The name of a lane. The caller gives each lane a name of its own.
#[derive(Clone, Copy, Debug, PartialEq, Eq)]
pub struct LaneName {
    pub opening: u64,
    pub kind: u32,
    pub index: u32,
}
