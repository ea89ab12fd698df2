//! The images that a replica's node fetches, as it counts them.

use crate::under_way::is_piece;
use dispatcher::Got;

/// What came of an image.
#[derive(Clone, Copy, PartialEq, Eq)]
pub struct FetchedImage {
    /// Its base: the image is that of the tables after so many commits.
    pub base: u64,
    /// How many of its pieces came and were taken since a Head named it, and how many bytes their datagrams had.
    pub pieces: u64,
    pub bytes: u64,
}

/// What came of the image that the newest Head named, if it named one.
#[derive(Clone, Copy)]
pub struct ImageCount {
    image: Option<FetchedImage>,
}

impl ImageCount {
    /// Of no image.
    pub fn none() -> ImageCount {
        ImageCount { image: None }
    }

    /// Notes that these bytes came, which the replica answered so; its batch now goes by the image at this base, or by none.
    pub fn note(&mut self, base: Option<u64>, bytes: &[u8], got: Got) {
        match got {
            Got::Head(_) => self.begin(base),
            Got::Stored => self.count(bytes),
            _ => {}
        }
    }

    /// Notes that a Head was taken, by which the batch goes by this image. What came of it before is counted on.
    fn begin(&mut self, base: Option<u64>) {
        let before = match &self.image {
            Some(image) => Some(image.base),
            None => None,
        };
        if before == base {
            return;
        }
        self.image = match base {
            Some(base) => Some(FetchedImage {
                base,
                pieces: 0,
                bytes: 0,
            }),
            None => None,
        };
    }

    /// Counts a datagram that was taken, if it is a piece.
    fn count(&mut self, bytes: &[u8]) {
        if !is_piece(bytes) {
            return;
        }
        if let Some(image) = &mut self.image {
            image.pieces = image.pieces.saturating_add(1);
            image.bytes = image.bytes.saturating_add(bytes.len() as u64);
        }
    }

    /// The image, which is then counted no longer.
    pub fn take(&mut self) -> Option<FetchedImage> {
        self.image.take()
    }
}
