/// What bounds a run: the number of words, the number of workers, the instructions that each may make.
#[derive(Clone, Copy)]
pub struct Limits {
    pub words: u64,
    pub workers: u32,
    pub budget: u64,
}
