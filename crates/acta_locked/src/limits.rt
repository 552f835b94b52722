/// The most workers of a driven run.
pub const MOST_WORKERS: usize = 16;
