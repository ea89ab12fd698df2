//! A place in the image of a version.

ghost use Rattle.std.specs.Prelude.{◌≡◌, Some};
ghost use Rattle.rows.specs.Image.{image_of};
ghost use Rattle.rows.specs.Shape.{Shape};
ghost use Rattle.rows.specs.Tables.{Tables};
ghost use Rattle.mvcc.specs.ImageParts.{image_rest};

/// A place in the image of a version, which is made part by part. Before it are the images of the
/// tables below `table`, and of this table the inserts of the rows below `row`, with the added
/// columns unless `row` is 0.
#[derive(Clone, Copy)]
pub struct ImagePlace {
    pub table: u8,
    pub row: u64,
}

impl ImagePlace {
    /// The beginning of each image.
    #[tactic(auto, using(crate::proofs::TableImages::begins))]
    pub fn first() -> ImagePlace
        ensures first { result ≡ record { table = 0; row = 0 } }
        ensures all { (shape : Shape) (tables : Tables) → image_rest shape tables (Some result) ≡ image_of shape tables }
    {
        ImagePlace { table: 0, row: 0 }
    }
}
