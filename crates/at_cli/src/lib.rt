//! The program's words, its outcome, and its top call.
#![tactic(auto)]

// The words behind the name of the program.
mod words;

// The texts of files that the program makes.
mod made;
mod squares;

// What comes of the words and the files, and how it is told.
mod outcome;

pub use made::made_file;
pub use outcome::run::top;
pub use outcome::telling::tell_no_memory;
pub use words::form::form_of;
pub use words::line::{Line, WordsEnd, read_words};
