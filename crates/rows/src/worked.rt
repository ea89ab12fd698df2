//! An image that is worked out on the definitions alone.

ghost use Rattle.std.specs.Prelude.{◌≡◌, Ok};
ghost use Rattle.rows.specs.Image.{image_of};
ghost use Rattle.rows.specs.Tables.{opening, apply_entries};
ghost use Rattle.rows.specs.Worked.{worked_shape, worked_tables, worked_image};

/// What the definition of an image gives for worked tables, and what it makes of those of the
/// opening. It does nothing: its contract is what the checker computes.
pub fn worked_images()
    ensures image { image_of worked_shape worked_tables ≡ worked_image }
    ensures rebuilt { apply_entries (opening worked_shape) worked_image ≡ Ok worked_tables }
{}
