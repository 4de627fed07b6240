// The buffers that a call is lent.

// The answer's cells and the work buffers, of the lengths that the call wants.
#[derive(Drop)]
pub struct Lent<'a> {
    pub cells: &'a mut [f32],
    pub distances: &'a mut [f32],
    pub marks: &'a mut [u8],
    pub listed: &'a mut [u32],
    pub adjacent: &'a mut [u32],
    pub added: &'a mut [u8],
    pub queue: &'a mut [u32],
}
