// The plain data of the kernel that its definitions speak of.

/// A lock: that of a module, by its number in load order from 0, or that of an object, by its number from 1.
#[derive(Clone, Copy, PartialEq, Eq)]
pub enum LockName {
    Module(u32),
    Object(u32),
}

/// What the condition of one who waits comes to.
#[derive(Clone, Copy, PartialEq, Eq)]
pub enum Verdict {
    Holds,
    Fails,
    /// Its evaluation traps with this number.
    Traps(u8),
}

/// How far an execution is.
#[derive(Clone, Copy, PartialEq, Eq, Debug)]
pub enum Outcome {
    /// An activity is ready or on a worker.
    Going,
    /// All activities have ended.
    Ended,
    /// None is ready or on a worker, and some haven't ended.
    Dead,
    /// An activity has begun as many statements as the budget.
    Spent,
}

/// The work that a turn leaves to the kernel.
#[derive(Clone, Copy)]
pub enum Did {
    /// None.
    Went,
    /// The activity has no frame left: it ends.
    Ended,
    /// It asks for a lock.
    Enter(LockName),
    /// It leaves the region of a lock.
    Leave(LockName),
    /// It awaits the condition of this number, in the region of this lock.
    Await(LockName, u32),
    /// It starts the activity of the object of this number.
    Start(u32),
    /// A trap, by its number and code.
    Trapped(u8, u8),
}

/// What can be seen of a step, in the order in which it happens.
#[derive(Clone, Copy)]
pub enum Event {
    /// An activity was started.
    Start {
        activity: u32,
    },
    /// An activity took a free lock.
    Enter {
        lock: LockName,
        activity: u32,
    },
    /// An activity joined those who wait for a lock: for a condition, or else to enter.
    Wait {
        lock: LockName,
        activity: u32,
        waiter: bool,
    },
    /// A lock passed from its owner to one who waited for it: for a condition, or else to enter.
    Pass {
        lock: LockName,
        from: u32,
        to: u32,
        waiter: bool,
    },
    /// A lock was left, and nobody owns it.
    Free {
        lock: LockName,
        from: u32,
    },
    /// A trap was recorded.
    Trap {
        activity: u32,
        number: u8,
    },
    /// An activity ended.
    End {
        activity: u32,
    },
}

/// The most steps that one entry of a schedule stands for.
pub const MAX_STEPS: u32 = 1_000_000_000;

/// An entry of a schedule: which worker goes on.
#[derive(Clone, Copy, PartialEq, Eq, Debug)]
pub enum Sched {
    /// So many steps of a worker: the worker, and 1 to 10^9 for their number.
    Steps(u32, u32),
    /// A tick of a worker.
    Tick(u32),
}
