// The numbers of locks.

ghost use Rattle.std.specs.Prelude.{◌≡◌, ℕ, ◌<◌, Some, None, OnOk, get_or, length};
ghost use Rattle.aos_base.specs.declared.kernel.LockName.{LockName};
ghost use Rattle.aos_base.specs.Lock.{is_lock};
ghost use Rattle.aos_base.specs.Book.{put};
ghost use Rattle.aos_scheduler.specs.Numbers.{number_of, HasRoom};

use aos_base::{LockName, NoMemory};
use std::alloc::Global;

/// The number of each lock that was asked for, of modules' locks and of objects'.
#[derive(Drop)]
pub(crate) struct Numbers {
    modules: Vec<Option<u32>>,
    objects: Vec<Option<u32>>,
}

/// The number under a key.
fn at(numbers: &[Option<u32>], key: u32) -> Option<u32>
    ensures { result ≡ get_or numbers.now key None }
{
    match numbers.get(key as usize) {
        Some(number) => *number,
        None => None,
    }
}

/// Makes room for the number under a key.
fn reserve(numbers: &mut Vec<Option<u32>>, key: u32) -> Result<(), NoMemory>
    ensures room { OnOk result (key < length numbers.new.items) }
    ensures same { (other : ℕ) →
        get_or numbers.new.items other None ≡ get_or numbers.old.items other None }
{
    let room = numbers.len().max(key as usize + 1);
    numbers.resize(room, None)?;
    Ok(())
}

impl Numbers {
    /// No lock has a number. It takes no memory.
    pub(crate) fn new(alloc: Global) -> Self
        ensures { (lock : LockName) → number_of result lock ≡ None }
    {
        Numbers {
            modules: Vec::new(alloc),
            objects: Vec::new(alloc),
        }
    }

    /// A lock's number, where it has one.
    pub(crate) fn get(&self, lock: LockName) -> Option<u32>
        ensures { result ≡ number_of self.now lock }
    {
        match lock {
            LockName::Module(module) => at(&self.modules, module),
            LockName::Object(object) => at(&self.objects, object),
        }
    }

    /// Makes room for a lock's number.
    pub(crate) fn reserve(&mut self, lock: LockName) -> Result<(), NoMemory>
        ensures room { OnOk result (HasRoom self.new lock) }
        ensures same { (other : LockName) → number_of self.new other ≡ number_of self.old other }
    {
        match lock {
            LockName::Module(module) => reserve(&mut self.modules, module),
            LockName::Object(object) => reserve(&mut self.objects, object),
        }
    }

    /// Gives a lock a number.
    pub(crate) fn set(&mut self, lock: LockName, number: u32)
        requires { HasRoom self.old lock }
        ensures { (other : LockName) →
            number_of self.new other ≡ put is_lock (number_of self.old) lock (Some number) other }
    {
        match lock {
            LockName::Module(module) => self.modules[module as usize] = Some(number),
            LockName::Object(object) => self.objects[object as usize] = Some(number),
        }
    }
}
