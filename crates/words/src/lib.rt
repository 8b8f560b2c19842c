// The 32-bit words of a program: what each one says, and how it is written.
#![tactic(auto)]

pub use bits::{Bits, Code};

pub mod entry;
mod fields;
pub mod head;
pub mod instruction;
mod kinds;
mod word;

pub use entry::Entry;
pub use fields::{from_register, kind};
pub use head::Head;
pub use instruction::{CellOperand, CodeOperand, Instruction};
pub use kinds::Kind;
pub use word::Word;

// A place is the index of a word in its program.
pub type Place = Bits<13>;
