//! What a test owns is lent to whoever asks something of it.

/// Lends the value to a function. (What a function owns costs its proof at each step, so tests borrow it.)
pub(crate) fn lend<T: Drop, R, F: FnOnce(&mut T) -> R>(mut value: T, asked: F) -> R
    requires { F.IsAlwaysCallable asked }
{
    asked(&mut value)
}
