use vd_base::Bytes;

/// What is said of a file: of the byte at an offset, or of the whole file.
#[derive(Drop)]
pub struct Remark {
    pub offset: Option<u32>,
    pub sentence: Bytes,
}
