//! The form of a file: a head, and slots after it.

use crate::spelling::BODY;

/// The bytes of a file's head.
pub(crate) const HEAD: usize = 18;

/// The bytes of a slot: a gate and a body.
pub(crate) const SLOT: usize = 1 + BODY;

/// The gate of a slot without a record.
pub(crate) const SHUT: u8 = 0;

/// The gate of a slot with one.
pub(crate) const OPEN: u8 = 255;

/// The most slots of a file.
pub(crate) const MOST: usize = 65536;

/// The most bytes of a file.
pub(crate) const LARGEST: usize = HEAD + SLOT * MOST;
