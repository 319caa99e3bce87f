// The work of a program that draws: a font and a control file of the current folder are read once, and each line of the input is drawn.
#![tactic(auto)]

mod files;
mod input;
mod printing;

pub use files::run;
