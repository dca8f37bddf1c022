// A lent room, and how many of its bytes are put, one behind the other.

#[derive(Drop)]
pub struct Room<'a> {
    bytes: &'a mut [u8],
    length: usize,
}

impl<'a> Room<'a> {
    pub fn new(bytes: &'a mut [u8]) -> Self {
        Room { bytes, length: 0 }
    }

    // How many bytes there are.
    pub fn length(&self) -> usize {
        self.length
    }

    // Bytes more; those that have no room are lost.
    pub fn put(&mut self, bytes: &[u8]) {
        wire::copy_into(self.bytes, self.length, bytes);
        self.length = self
            .length
            .saturating_add(bytes.len())
            .min(self.bytes.len());
    }

    // The bytes that were put.
    pub fn into_slice(self) -> &'a [u8] {
        let Room { bytes, length } = self;
        wire::part_of(bytes, 0, length)
    }
}
