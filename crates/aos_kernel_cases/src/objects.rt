// What is told of objects that are made one after the other.

use crate::stop::Stop;
use aos_base::Root;
use aos_code::Image;
use aos_store::Store;
use aos_store_calls::{StoreErr, cells, lens, new_object};
use std::alloc::{AllocError, Global};

// The numbers that words say.
fn numbers_of(alloc: Global, text: &str) -> Result<Vec<u32>, Stop> {
    let mut numbers = Vec::new(alloc);
    for word in text.split_whitespace() {
        match word.parse::<u32>() {
            Ok(number) => numbers.push(number)?,
            Err(_) => return Err(Stop::Malformed("malformed: an object is `TYPE LENGTH LENGTH`")),
        }
    }
    Ok(numbers)
}

// Tells of an object: its number, how many cells it has, and the lengths with which it was made.
fn tell_object(told: &mut String, store: &Store, number: u32) -> Result<(), AllocError> {
    let count = cells(store, Root::Object(number)).unwrap_or(0);
    write!(told, " {number} of {count}")?;
    for length in lens(store, number) {
        write!(told, "/{length}")?;
    }
    Ok(())
}

// Makes the object that a text says, by the number of its type and its lengths, and tells of it.
fn make(
    alloc: Global,
    image: &Image,
    store: &mut Store,
    told: &mut String,
    text: &str,
) -> Result<(), Stop> {
    let numbers = numbers_of(alloc, text)?;
    let of_type = numbers.first().copied().unwrap_or(0);
    let lengths = numbers.get(1..).unwrap_or(&[]);
    match new_object(alloc, image, store, of_type, lengths) {
        Ok(number) => Ok(tell_object(told, store, number)?),
        Err(StoreErr::Full) => Ok(told.push_str(" full")?),
        Err(StoreErr::NoMemory) => Err(Stop::NoMemory),
    }
}

/// Tells of objects that are made one after the other in the memory with which an image begins.
pub fn objects(alloc: Global, image: &Image, text: &str) -> Result<String, Stop> {
    let mut store = Store::new(alloc, image)?;
    let mut told = String::new(alloc);
    for part in text.split_terminator(", ") {
        make(alloc, image, &mut store, &mut told, part)?;
    }
    Ok(told)
}
