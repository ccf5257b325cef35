//! The arguments of a program.
use crate::program::NoWords;
use crate::words::Words;
use std::alloc::AllocGlobal;
use std::env;
use std::io::ErrorKind;
use std::rt::Env;

/// The arguments, the program's name first. No clause can say which they are.
///
/// # Errors
///
/// `NotUtf8` if an argument is not UTF-8, `Memory` if memory for the arguments is refused.
pub fn words_of<R: Env + AllocGlobal>(rt: &R) -> Result<Words, NoWords> {
    let arguments = match env::args(rt) {
        Ok(arguments) => arguments,
        Err(error) if error.kind() == ErrorKind::OutOfMemory => return Err(NoWords::Memory),
        Err(_) => return Err(NoWords::NotUtf8),
    };
    let mut words = Words::new(rt.alloc());
    for argument in arguments {
        if words.push(argument.as_str()).is_err() {
            return Err(NoWords::Memory);
        }
    }
    Ok(words)
}
