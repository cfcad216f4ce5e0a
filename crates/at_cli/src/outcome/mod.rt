//! The outcome: files are loaded, a query over them is answered, and the end of that is told.

pub mod answering;
pub mod ending;
pub mod feeding;
pub mod loading;
pub mod reading;
pub mod run;
pub mod telling;
