// What the loop works in, and what it reads.
use cells::Ring;

// The grids that a search reads; a rule reads only those that it has.
#[derive(Clone, Copy)]
pub struct Grids<'a> {
    pub targets: &'a [u8],
    pub obstacles: &'a [u8],
    pub times: &'a [f32],
    pub values: &'a [f32],
}

// What lies in the way: the obstacles, and the times of the cells.
#[derive(Clone, Copy)]
pub struct Terrain<'a> {
    pub obstacles: &'a [u8],
    pub times: &'a [f32],
}

// The buffers that the loop works in: the labels of the cells, their marks, and the ring of those that wait.
#[derive(Drop)]
pub struct Buffers<'a> {
    pub distances: &'a mut [f32],
    pub carried: &'a mut [f32],
    pub marks: &'a mut [u8],
    pub queue: &'a mut [u32],
    pub ring: Ring,
}
