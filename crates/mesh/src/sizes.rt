// What the mesh call answers. A module of its own, since a type may not be named as the function `mesh` in all but case.

// How many triangles a mesh has, and how many splits are made in it (02, W12).
#[derive(Clone, Copy)]
pub struct Mesh {
    pub triangles: u64,
    pub splits: u32,
}
