/// What one host sends to another at once: the first `count` of the words, which are 1 to 16.
#[derive(Clone, Copy)]
pub struct Packet {
    pub count: u8,
    pub words: [u32; 16],
}
