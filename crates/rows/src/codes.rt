//! The first byte of a spelling: the kind of entry.

/// An insert.
pub const INSERT_CODE: u8 = 1;

/// A patch.
pub const PATCH_CODE: u8 = 2;

/// A delete.
pub const DELETE_CODE: u8 = 3;

/// An added column.
pub const ADD_COLUMN_CODE: u8 = 4;
