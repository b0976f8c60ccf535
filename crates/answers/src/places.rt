// What is read of a sector or a volume.

// A sector's three places, or a volume's three images, to be read.
#[derive(Clone, Copy)]
pub struct Places<'a> {
    pub local: &'a [u8],
    pub tag: &'a [u8],
    pub remote: &'a [u8],
}
