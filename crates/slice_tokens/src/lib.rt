//! The words and lines of a stream of any length, read through one buffer of 65,536 bytes. The stream comes in pieces that a
//! source cuts as it likes; a word is a part of the buffer, so a line is never held as a whole, and a line of a gigabyte
//! takes no more memory than one of ten bytes.
//!
//! The idea is that of a buffered reader that keeps what it hasn't passed over yet. A read adds behind it; only then is it
//! moved to the buffer's front. So a word that begins near the end of the buffer is whole too, and as no word that counts
//! has more than 32 bytes, the buffer always has room for one. What would go wrong otherwise: a word that is split where
//! the buffer ends is taken for two, `12` for `1` and `2`, and the answer depends on how the source cuts its pieces.
//!
//! What is said of a window is therefore said of the stream and not of the buffer: the words that are left of the present
//! line and the lines behind it, a function of the bytes that are held and of those that the source has left. A read
//! moves bytes from the one to the other and changes nothing of it. A failed read, too, leaves the stream as it was.
//!
//! At most 2^62 bytes of a stream are read, so that every count, the lines' among them, fits its 64 bits. The line that
//! this bound cuts is told as cut, and its last word is known only if it ended before the bound.
#![tactic(auto)]

mod bytes;
mod filling;
mod token;
mod window;

pub use token::{Token, TokenFault};
pub use window::Window;
