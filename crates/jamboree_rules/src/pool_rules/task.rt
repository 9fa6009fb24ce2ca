//! The tasks of a pool's workers: frames that became ready.
use frame_table::FrameId;

/// A frame that became ready, and the worker whose task it is. It is a hint: the hall may refuse the frame when a
/// worker comes for it, as another may have taken it or it may be gone.
#[derive(Clone, Copy, Debug, PartialEq, Eq)]
pub struct Task {
    /// The frame.
    pub frame: FrameId,
    /// The number of the worker that made the frame ready, 1 to 32, or 0 for the hall.
    pub home: u8,
}
