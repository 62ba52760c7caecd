// What a pass has and knows: plain data with kernels in it, of which no value is ever made.

use aos_kernel::Kernel;
use std::collections::LinkedList;

/// What a pass with workers has and knows.
pub struct Part {
    /// Its own workers.
    pub workers: LinkedList<u32>,
    /// It has the kernel.
    pub has: bool,
    /// How often it may still give the kernel back.
    pub gives: u64,
    /// The kernel that was put in first.
    pub first: Kernel,
    /// The kernel that it took or gave last.
    pub last: Kernel,
    /// Those of its workers whose activities are lent.
    pub lent: LinkedList<u32>,
}

/// What a pass has and knows.
pub enum View {
    /// It may put the kernel in, which nobody has done yet.
    Opens,
    /// It has been joined to another.
    Spent,
    /// It has workers.
    Of(Part),
}
