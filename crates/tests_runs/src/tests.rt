// The tests, a file for each concept.
mod behind;
mod calls;
mod cuts;
mod edits;
mod faults;
mod long;
mod scripts;
mod settling;
mod steps;
mod tables;
mod words;
