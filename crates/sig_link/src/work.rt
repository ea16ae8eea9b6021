use sig_http::Kept;
use std::alloc::Global;

// What a link came to so far.
#[derive(Drop)]
pub struct Work<T> {
    pub alloc: Global,
    // Its number.
    pub link: u32,
    // How many requests were answered.
    pub answered: usize,
    // What was taken of the link and not used.
    pub kept: Kept,
    // The turns of its requests and of what followed them, in order.
    pub turns: Vec<T>,
}
